ghost use Rattle.std.specs.Prelude.{◌≡◌, ◌+◌, ◌<◌, ◌≤◌, ◌⊎◌, [], length, take, drop, None, ◌≢◌};
ghost use Rattle.judgement.specs.declared.phase.Phase.TheVariants as phases;
ghost use Rattle.protocol.specs.Outputs.{overlaid};
ghost use Rattle.protocol.specs.Replies.{octets_of};
ghost use Rattle.receiver.specs.Moments.{Paced, Told, moment};
ghost use Rattle.session.specs.Queues.{waits};

use crate::ending::settle;
use crate::seat::{Fed, Host, Seat};
use directory::directory::Directory;
use ends::ledger::Ledger;
use protocol::reply::Reply;
use session::hear::RECORDS;
use session::session::Event;
use session::waiting::Waiting;
use spool::interface::Spool;

// Takes octets while no reply waits, and carries out what they come to.
pub(crate) fn step<D: Directory, S: Spool>(
    seat: &mut Seat,
    ledger: &mut Ledger,
    spool: &mut S,
    host: &Host<'_, D>,
    input: &[u8],
    area: &mut [u8],
    sheet: &mut [usize; RECORDS],
) -> usize
    requires wide { length area.old ≡ seat.old.size }
    requires idle { S.Spool.lot spool.old ≡ None }
    requires quiet { waits seat.old.waiting ≡ [] }
    requires goes { seat.old.session.phase ≢ phases.Ended }
    requires some { 0 < length input.now }
    ensures within { result ≤ length input.now }
    ensures some { 0 < result }
    ensures idle { S.Spool.lot spool.new ≡ None }
    ensures size { seat.new.size ≡ seat.old.size }
    ensures told { Told S.Spool host.now.name.now (D.Directory.told host.now.directory.now) (moment seat.old ledger.old area.old sheet.old spool.old) (moment seat.new ledger.new area.new sheet.new spool.new) (take result input.now) [] }
{
    let heard = seat
        .session
        .hear(host.directory, host.name, input, area, sheet);
    match heard.event {
        Event::More => {}
        Event::Answered(reply) => {
            seat.waiting = Waiting::one(reply);
        }
        Event::MessageEnd {
            recipients,
            payload,
        } => {
            let records = &sheet[0..recipients.min(sheet.len())];
            seat.waiting = settle(seat.kind, spool, ledger, records, area, payload);
        }
    }
    heard.taken
}

// Writes a reply into the output from a place on, with 256 octets left, and answers the place behind it.
fn write(reply: Reply, name: &[u8], size: usize, output: &mut [u8], at: usize) -> usize
    requires short { length name.now ≤ 40 }
    requires narrow { size ≤ 65536 }
    requires space { at + 256 ≤ length output.old }
    ensures end { result ≡ at + length (octets_of name.now size reply) }
    ensures after { output.new ≡ overlaid output.old at (octets_of name.now size reply) }
    ensures within { result ≤ length output.new }
    ensures more { at < result }
{
    match reply.write(name, size, output, at) {
        Some(end) => end,
        None => unreachable(),
    }
}

// Writes replies and takes octets, step by step: a step is done exactly when 256 octets of output are left and a reply waits or,
// before Ended, an octet is there.
pub(crate) fn converse<D: Directory, S: Spool>(
    seat: &mut Seat,
    ledger: &mut Ledger,
    spool: &mut S,
    host: &Host<'_, D>,
    input: &[u8],
    output: &mut [u8],
    area: &mut [u8],
    sheet: &mut [usize; RECORDS],
) -> Fed
    requires narrow { length area.old ≤ 65536 }
    requires roomy { 256 ≤ length output.old }
    requires wide { length area.old ≡ seat.old.size }
    requires idle { S.Spool.lot spool.old ≡ None }
    ensures taken { result.taken ≤ length input.now }
    ensures written { result.written ≤ length output.new }
    ensures waiting { result.waiting ≡ length (waits seat.new.waiting) }
    ensures rest { drop result.written output.new ≡ drop result.written output.old }
    ensures size { seat.new.size ≡ seat.old.size }
    ensures told { Told S.Spool host.now.name.now (D.Directory.told host.now.directory.now) (moment seat.old ledger.old area.old sheet.old spool.old) (moment seat.new ledger.new area.new sheet.new spool.new) (take result.taken input.now) (take result.written output.new) }
    ensures paced { length output.new < result.written + 256 → Paced S.Spool host.now.name.now (D.Directory.told host.now.directory.now) (moment seat.old ledger.old area.old sheet.old spool.old) (moment seat.new ledger.new area.new sheet.new spool.new) (take result.taken input.now) output.new result.written }
    ensures stops { result.written + 256 ≤ length output.new → (waits seat.new.waiting ≡ []) × ((result.taken ≡ length input.now) ⊎ (seat.new.session.phase ≡ phases.Ended)) }
{
    let mut taken = 0;
    let mut written = 0;
    // Both counts are what the feed answers.
    while output.len() - written >= 256 {
        match seat.waiting.next() {
            Some(reply) => {
                written = write(reply, host.name, area.len(), output, written);
                seat.waiting.pass();
            }
            None => {
                if taken >= input.len() || seat.session.is_ended() {
                    break;
                }
                taken += step(seat, ledger, spool, host, &input[taken..], area, sheet);
            }
        }
    }
    Fed {
        taken,
        written,
        waiting: seat.waiting.len(),
    }
}
