// A document as the part keeps it.

// One live document: its sequence number, when it is available, the times that its elements give it,
// and the host's key to what is drawn. An absent time is `None`.
#[derive(Clone, Copy, Debug, Default, PartialEq, Eq)]
pub struct Document {
    pub number: u32,
    pub available: u32,
    pub begin: Option<u32>,
    pub end: Option<u32>,
    pub dur: Option<u32>,
    pub content: u32,
}
