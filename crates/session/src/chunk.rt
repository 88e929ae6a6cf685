ghost use Rattle.std.specs.Prelude.{◌≡◌, ◌+◌, ◌≤◌, false, length, if◌then◌else◌, nat_le};
ghost use Rattle.judgement.specs.declared.phase.Phase.TheVariants as phases;
ghost use Rattle.session.specs.Places.{Announced, ChunkEnds, Started};
ghost use Rattle.session.specs.Standings.{takes_chunks};
ghost use Rattle.session.specs.declared.session.Event.TheVariants as events;
ghost use Rattle.spool.specs.Lists.{records};

use crate::hear::Sheet;
use crate::session::{ChunkPart, Event, Mode, Session};
use command::chunk::Chunk;
use judgement::phase::Phase;
use protocol::reply::Reply;

// Whether a chunk joins the payload in a phase.
fn takes_chunks(phase: Phase) -> bool
    ensures { result ≡ takes_chunks phase }
{
    matches!(phase, Phase::Rcpt | Phase::Chunks)
}

// Whether a chunk of a size joins the payload kept so far in an area.
fn joins(phase: Phase, kept: usize, size: usize, area: usize) -> bool
    ensures { kept ≤ area → result ≡ (if takes_chunks phase then nat_le (kept + size) area else false) }
{
    takes_chunks(phase) && size <= area.saturating_sub(kept)
}

impl Session {
    // The message ends: the transaction is dropped, and its recipients and its payload are handed on.
    pub(crate) fn end_message(&mut self, payload: Option<usize>, sheet: &Sheet) -> Event
        ensures answer { result ≡ events.MessageEnd (length (records self.old.recipients sheet.now)) payload }
        ensures started { Started self.old self.new phases.Greeted }
    {
        let recipients = self.recipients.len(sheet);
        self.start(Phase::Greeted);
        Event::MessageEnd {
            recipients,
            payload,
        }
    }

    // All octets of a chunk came.
    pub(crate) fn end_chunk(
        &mut self,
        chunk: Chunk,
        joins: bool,
        area: &[u8],
        sheet: &Sheet,
    ) -> Event
        ensures { ChunkEnds self.old self.new area.now sheet.now chunk joins result }
    {
        self.mode = Mode::Line;
        if !takes_chunks(self.phase) {
            return Event::Answered(Reply::OutOfOrder);
        }
        let payload = joins.then(|| self.kept.saturating_add(chunk.size).min(area.len()));
        match payload {
            _ if chunk.last => self.end_message(payload, sheet),
            Some(kept) => {
                self.kept = kept;
                self.phase = Phase::Chunks;
                Event::Answered(Reply::Done)
            }
            None => {
                self.start(Phase::Spoiled);
                Event::Answered(Reply::TooLarge)
            }
        }
    }

    // A chunk is announced; one of no octets ends with its line.
    pub(crate) fn announce(&mut self, chunk: Chunk, area: &[u8], sheet: &Sheet) -> Event
        ensures { Announced self.old self.new area.now sheet.now chunk result }
    {
        let joins = joins(self.phase, self.kept, chunk.size, area.len());
        if chunk.size == 0 {
            return self.end_chunk(chunk, joins, area, sheet);
        }
        self.mode = Mode::Chunk(ChunkPart {
            chunk,
            got: 0,
            joins,
        });
        Event::More
    }
}
