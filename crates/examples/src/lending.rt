// A host lends records to a live table, and has them back when the table is gone.

ghost use Rattle.std.specs.Prelude.{◌≡◌};
ghost use Rattle.streams.specs.Tables.{records_after};

use documents::document::Document;
use streams::live::LiveTable;
use streams::making::TableOver;
use streams::stream::Stream;
use streams::taking::TakingStream;

// Takes one document into a table over lent records, and ticks. Afterwards the host knows each record:
// the first holds the document unless it was refused, and all others are as they were.
pub fn lend_for_one(records: &mut [Document], document: Document, moment: u32)
    ensures { records.new ≡ records_after 0 records.old 0 document }
{
    let mut table = LiveTable::over(records);
    let _ = table.take(document);
    let _ = table.tick(moment);
}
