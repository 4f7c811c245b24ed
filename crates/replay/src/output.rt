// What is printed, kept until the end.

ghost use Rattle.std.specs.Prelude.{◌≡◌, ◌+◌, ◌<◌, ◌≤◌, [], ◌++◌, length, drop, is_ok, if◌then◌else◌, OnOk};
ghost use Rattle.times.specs.Refusals.{refusal_number};
ghost use Rattle.stacks.specs.Calls.{told_reply};
ghost use Rattle.scripts.specs.Printing.{reply_text, node_text, unreadable_text};

use scripts::printing::{put_node, put_reply, put_unreadable};
use stacks::calls::Reply;
use std::alloc::{AllocError, Global};
use times::put::BackWriter;
use times::refusal::Refusal;

// No line of a reply is longer.
const LINE_ROOM: usize = 128;

// The number of a refusal, 0 where there is none.
fn number_of(refused: Option<Refusal>) -> u8
    ensures { result ≡ refusal_number refused }
{
    refused.map_or(0, Refusal::number)
}

// The lines of a node's or a call's reply are numbered from 1 under their heading; `count` of them were written.
#[derive(Drop)]
pub struct Output {
    bytes: Vec<u8>,
    count: usize,
    // each of them has bytes, so that it can be counted
    ghost few: { count ≤ length bytes.items },
}

impl Output {
    pub fn new(heap: Global) -> Output
        ensures { result.bytes.items ≡ [] }
    {
        Output {
            bytes: Vec::new(heap),
            count: 0,
        }
    }

    pub fn into_bytes(self) -> Vec<u8>
        ensures { result.items ≡ self.bytes.items }
    {
        let Output { bytes, .. } = self;
        bytes
    }

    pub fn text(&mut self, text: &[u8]) -> Result<(), AllocError>
        ensures { self.new.bytes.items ≡ (if is_ok result then self.old.bytes.items ++ text.now else self.old.bytes.items) }
    {
        self.bytes.extend_from_slice(text)
    }

    // A heading, under which the lines are numbered anew.
    pub fn heading(&mut self, text: &[u8]) -> Result<(), AllocError>
        ensures text { self.new.bytes.items ≡ (if is_ok result then self.old.bytes.items ++ text.now else self.old.bytes.items) }
        ensures count { OnOk result (self.new.count ≡ 0) }
    {
        self.text(text)?;
        self.count = 0;
        Ok(())
    }

    // What a line holds from a place on.
    fn rest(&mut self, line: &[u8], start: usize) -> Result<(), AllocError>
        requires { start ≤ length line.now }
        ensures text { self.new.bytes.items ≡ (if is_ok result then self.old.bytes.items ++ drop start line.now else self.old.bytes.items) }
        ensures count { self.new.count ≡ self.old.count }
    {
        self.bytes.extend_from_slice(&line[start..])
    }

    // The same of a numbered line.
    fn numbered(&mut self, line: &[u8], start: usize) -> Result<(), AllocError>
        requires { start < length line.now }
        ensures text { self.new.bytes.items ≡ (if is_ok result then self.old.bytes.items ++ drop start line.now else self.old.bytes.items) }
        ensures count { OnOk result (self.new.count ≡ self.old.count + 1) }
    {
        self.rest(line, start)?;
        self.count += 1;
        Ok(())
    }

    // The line of a node's reply: why it was refused, if it was. This and the next two are alike but for what is put; one for
    // all, given a closure that puts, is no plainer, since it could promise only what the closure may put.
    pub fn node(&mut self, refused: Option<Refusal>) -> Result<(), AllocError>
        ensures text { self.new.bytes.items ≡ (if is_ok result then self.old.bytes.items ++ node_text (self.old.count + 1) (refusal_number refused) else self.old.bytes.items) }
        ensures count { OnOk result (self.new.count ≡ self.old.count + 1) }
    {
        let mut line = [0u8; LINE_ROOM];
        let mut writer = BackWriter::new(&mut line, LINE_ROOM);
        put_node(&mut writer, self.count + 1, number_of(refused));
        let start = writer.begin();
        self.numbered(&line, start)
    }

    // The line of a call's reply; `handed_in` stands beside it as in `put_reply`.
    pub fn reply(&mut self, handed_in: bool, reply: Reply) -> Result<(), AllocError>
        ensures text { self.new.bytes.items ≡ (if is_ok result then self.old.bytes.items ++ reply_text (self.old.count + 1) handed_in (told_reply reply) else self.old.bytes.items) }
        ensures count { OnOk result (self.new.count ≡ self.old.count + 1) }
    {
        let mut line = [0u8; LINE_ROOM];
        let mut writer = BackWriter::new(&mut line, LINE_ROOM);
        put_reply(&mut writer, self.count + 1, handed_in, reply);
        let start = writer.begin();
        self.numbered(&line, start)
    }

    // The line that ended the reading.
    pub fn unreadable(&mut self, number: usize) -> Result<(), AllocError>
        ensures { self.new.bytes.items ≡ (if is_ok result then self.old.bytes.items ++ unreadable_text number else self.old.bytes.items) }
    {
        let mut line = [0u8; LINE_ROOM];
        let mut writer = BackWriter::new(&mut line, LINE_ROOM);
        put_unreadable(&mut writer, number);
        let start = writer.begin();
        self.rest(&line, start)
    }
}
