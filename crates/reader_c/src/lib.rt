// The static library of `reader`: an order as pacs.008 text, for C (include/zolfigar.h).
#![tactic(auto)]

ghost use Rattle.pacs.specs.Answering.{Ordered};

// For C: the refusal, 0 where there is none; 255 where the ticket has less than 108 bytes. A refused text leaves the ticket as it was; of a
// longer one the first 108 bytes are written.
#[unsafe(no_mangle)]
pub extern "C" fn zolfigar_pacs008(text: &[u8], time: u32, ticket: &mut [u8]) -> u8
    ensures { Ordered text.now time ticket.old ticket.new result }
{
    reader::zolfigar_pacs008(text, time, ticket)
}
