ghost use Rattle.std.specs.Prelude.{◌≡◌, ◌<◌, ◌≤◌, [], ◌∷◌, length, take, Decides, ◌≢◌};
ghost use Rattle.judgement.specs.declared.phase.Phase.TheVariants as phases;
ghost use Rattle.session.specs.Places.{Hears, Heeding, Opens, Still, setting_of};
ghost use Rattle.session.specs.declared.session.Mode.TheVariants as modes;

use crate::obey::seek;
use crate::session::{ChunkPart, Event, Heard, Mode, Session};
use directory::directory::Directory;
use judgement::judge::judge;
use judgement::judged::Asked;
use judgement::phase::{Kind, Phase};
use protocol::line::LineBuffer;
use protocol::part::DataPart;
use spool::list::OrderedList;

// How many records a sheet has.
pub const RECORDS: usize = 100;

// A sheet, whose first records are the recipients.
pub(crate) type Sheet = [usize; RECORDS];

impl Session {
    // A conversation that begins.
    pub fn new(kind: Kind) -> Session
        ensures { Opens kind result }
    {
        Session {
            kind,
            phase: Phase::Fresh,
            mode: Mode::Line,
            line: LineBuffer::new(),
            recipients: OrderedList::new(),
            kept: 0,
        }
    }

    // Whether the conversation takes no more octets.
    pub fn is_ended(&self) -> bool
        ensures { Decides result (self.now.phase ≡ phases.Ended) }
    {
        self.phase == Phase::Ended
    }

    // One octet of a command line.
    fn hear_line<D: Directory>(
        &mut self,
        directory: &D,
        name: &[u8],
        octet: u8,
        area: &[u8],
        sheet: &mut Sheet,
    ) -> Event
        requires mode { self.old.mode ≡ modes.Line }
        requires open { self.old.phase ≢ phases.Ended }
        ensures { Hears (setting_of self.old name.now area.now (D.Directory.told directory.now)) self.old self.new area.now area.now sheet.old sheet.new (octet ∷ []) result }
    {
        if !self.line.push(octet) {
            return Event::More;
        }
        let text = self.line.text();
        let judged = judge(self.kind, self.phase, text, self.line.is_long(), area.len());
        let asked = seek(directory, name, text, judged);
        self.line.clear();
        match judged {
            Ok(Asked::Chunk(chunk)) => self.announce(chunk, area, sheet),
            _ => Event::Answered(self.obey(judged, asked, sheet)),
        }
    }

    // Octets of a chunk.
    fn hear_chunk(&mut self, part: ChunkPart, input: &[u8], area: &mut [u8], sheet: &Sheet) -> Heard
        requires mode { self.old.mode ≡ modes.Chunk part }
        ensures within { result.taken ≤ length input.now }
        ensures some { 0 < length input.now → 0 < result.taken }
        ensures hears { Heeding self.old self.new area.old area.new sheet.now (take result.taken input.now) result.event }
    {
        let ChunkPart { chunk, joins, .. } = part;
        let count = (chunk.size - part.got).min(input.len());
        let got = part.got + count;
        let at = self.kept.saturating_add(part.got);
        let end = at.saturating_add(count);
        if joins && end <= area.len() {
            area[at..end].copy_from_slice(&input[..count]);
        }
        let event = if got < chunk.size {
            self.mode = Mode::Chunk(ChunkPart { chunk, got, joins });
            Event::More
        } else {
            self.end_chunk(chunk, joins, area, sheet)
        };
        Heard {
            taken: count,
            event,
        }
    }

    // Octets of a data part.
    fn hear_data(
        &mut self,
        mut part: DataPart,
        input: &[u8],
        area: &mut [u8],
        sheet: &Sheet,
    ) -> Heard
        requires mode { self.old.mode ≡ modes.Data part }
        ensures within { result.taken ≤ length input.now }
        ensures some { 0 < length input.now → 0 < result.taken }
        ensures hears { Heeding self.old self.new area.old area.new sheet.now (take result.taken input.now) result.event }
    {
        let fed = part.feed(input, area);
        let event = if fed.ended {
            self.mode = Mode::Line;
            self.end_message(part.payload(), sheet)
        } else {
            self.mode = Mode::Data(part);
            Event::More
        };
        Heard {
            taken: fed.taken,
            event,
        }
    }

    // Takes octets, up to the end of a turn at most, into an area and a sheet of 100 records. Before Ended it takes one at least,
    // where there is one.
    pub fn hear<D: Directory>(
        &mut self,
        directory: &D,
        name: &[u8],
        input: &[u8],
        area: &mut [u8],
        sheet: &mut [usize],
    ) -> Heard
        ensures within { result.taken ≤ length input.now }
        ensures some { 0 < length input.now → length sheet.old ≡ 100 → (self.old.phase ≢ phases.Ended) → 0 < result.taken }
        ensures hears { Hears (setting_of self.old name.now area.old (D.Directory.told directory.now)) self.old self.new area.old area.new sheet.old sheet.new (take result.taken input.now) result.event }
        ensures none { result.taken ≡ 0 → Still self.old self.new area.old area.new sheet.old sheet.new result.event }
    {
        let nothing = Heard {
            taken: 0,
            event: Event::More,
        };
        if self.is_ended() {
            return nothing;
        }
        let [octet, ..] = input else {
            return nothing;
        };
        let Some(sheet) = sheet.as_mut_array::<RECORDS>() else {
            return nothing;
        };
        match self.mode {
            Mode::Line => Heard {
                taken: 1,
                event: self.hear_line(directory, name, *octet, area, sheet),
            },
            Mode::Chunk(part) => self.hear_chunk(part, input, area, sheet),
            Mode::Data(part) => self.hear_data(part, input, area, sheet),
        }
    }
}
