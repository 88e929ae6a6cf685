ghost use Rattle.std.specs.Prelude.{◌≡◌, ◌≢◌, ℕ, ◌<◌, ◌≤◌, true, false, List, [], ◌∷◌, length, take};
ghost use Rattle.std.specs.List.{AllByRecursion};
ghost use Rattle.protocol.specs.DataParts.{Adds, DataAfter, DataLaws, DataStands, DataTook, inside, payload_of};
ghost use Rattle.protocol.specs.Messages.{MessageFacts, MessageLaws};
ghost use Rattle.protocol.specs.declared.part.LinePlace.TheVariants.{DotCr, Inside};

use memchr::memchr;

// Where a line of a data part that has not ended stands.
#[derive(Clone, Copy)]
pub enum LinePlace {
    Start,
    Inside,
    Cr,
    Dot,
    DotCr,
}

// The data part of a message between two octets: how much payload the area holds, and whether more came.
#[derive(Clone, Copy)]
pub struct DataPart {
    place: LinePlace,
    kept: usize,
    over: bool,
}

// What a feed did: how many octets it took in either case, and whether the message ended with them.
#[derive(Clone, Copy)]
pub struct Fed {
    pub taken: usize,
    pub ended: bool,
}

impl DataPart {
    // A message from its beginning, in any area.
    pub fn new() -> DataPart
        ensures { (was : List ℕ) → DataStands [] result was was }
    {
        DataPart {
            place: LinePlace::Start,
            kept: 0,
            over: false,
        }
    }

    // How much payload the area holds.
    pub fn kept(&self) -> usize
        ensures { result ≡ self.now.kept }
    {
        let kept = self.kept;
        kept
    }

    // Whether the payload goes past the area.
    pub fn is_over(&self) -> bool
        ensures { result ≡ self.now.over }
    {
        let over = self.over;
        over
    }

    // How much payload the area holds: none where it goes past the area.
    pub fn payload(&self) -> Option<usize>
        ensures { result ≡ payload_of self.now }
    {
        if self.over { None } else { Some(self.kept) }
    }

    // Takes one octet, and answers whether it ended the message.
    pub fn take(&mut self, octet: u8, area: &mut [u8]) -> bool
        ensures { DataTook self.old self.new area.old area.new (octet ∷ []) result }
    {
        match self.place {
            LinePlace::Start => {
                if octet == b'.' {
                    self.place = LinePlace::Dot;
                } else {
                    self.go_on(octet, area);
                }
                false
            }
            LinePlace::Inside => {
                self.go_on(octet, area);
                false
            }
            LinePlace::Cr => {
                if octet == b'\n' {
                    self.put_octet(octet, area);
                    self.place = LinePlace::Start;
                } else {
                    self.go_on(octet, area);
                }
                false
            }
            LinePlace::Dot => {
                if octet == b'\r' {
                    self.place = LinePlace::DotCr;
                } else {
                    self.go_on(octet, area);
                }
                false
            }
            LinePlace::DotCr => self.end_or_go_on(octet, area),
        }
    }

    // After a dot and a CR at a line's front: the LF ends the message, and before any other octet the CR is payload.
    fn end_or_go_on(&mut self, octet: u8, area: &mut [u8]) -> bool
        requires { self.old.place ≡ DotCr }
        ensures { DataTook self.old self.new area.old area.new (octet ∷ []) result }
    {
        if octet == b'\n' {
            return true;
        }
        self.put_octet(b'\r', area);
        self.go_on(octet, area);
        false
    }

    // Takes octets up to the end of the message, a run at a time.
    pub fn feed(&mut self, input: &[u8], area: &mut [u8]) -> Fed
        ensures within { result.taken ≤ length input.now }
        ensures all { result.ended ≡ false → result.taken ≡ length input.now }
        ensures some { result.ended ≡ true → 0 < result.taken }
        ensures took { DataTook self.old self.new area.old area.new (take result.taken input.now) result.ended }
    {
        let mut rest = input;
        while let [first, later @ ..] = rest {
            let (run, after) = rest.split_at(self.run_length(rest));
            if !run.is_empty() {
                self.put(run, area);
                rest = after;
            } else if self.take(*first, area) {
                return Fed {
                    taken: input.len() - later.len(),
                    ended: true,
                };
            } else {
                rest = later;
            }
        }
        Fed {
            taken: input.len(),
            ended: false,
        }
    }

    // How many octets come before the next CR, if the line stands past its front.
    fn run_length(&self, octets: &[u8]) -> usize
        ensures within { result ≤ length octets.now }
        ensures clear { AllByRecursion (λ x. x ≢ 13) (take result octets.now) }
        ensures place { 0 < result → self.now.place ≡ Inside }
    {
        match self.place {
            LinePlace::Inside => memchr(b'\r', octets).unwrap_or(octets.len()),
            _ => 0,
        }
    }

    // The line goes on past its front.
    fn go_on(&mut self, octet: u8, area: &mut [u8])
        ensures place { self.new.place ≡ inside octet }
        ensures adds { Adds (octet ∷ []) self.old self.new area.old area.new }
    {
        self.put_octet(octet, area);
        self.place = place_inside(octet);
    }

    // Adds an octet to the payload.
    fn put_octet(&mut self, octet: u8, area: &mut [u8])
        ensures place { self.new.place ≡ self.old.place }
        ensures adds { Adds (octet ∷ []) self.old self.new area.old area.new }
    {
        if self.kept < area.len() {
            area[self.kept] = octet;
            self.kept += 1;
        } else {
            self.over = true;
        }
    }

    // Adds octets to the payload.
    fn put(&mut self, octets: &[u8], area: &mut [u8])
        ensures place { self.new.place ≡ self.old.place }
        ensures adds { Adds octets.now self.old self.new area.old area.new }
    {
        let Some(room) = area.len().checked_sub(self.kept) else {
            self.over = true;
            return;
        };
        if octets.len() <= room {
            let end = self.kept + octets.len();
            area[self.kept..end].copy_from_slice(octets);
            self.kept = end;
        } else {
            area[self.kept..].copy_from_slice(&octets[..room]);
            self.kept = area.len();
            self.over = true;
        }
    }
}

fn place_inside(octet: u8) -> LinePlace
    ensures { result ≡ inside octet }
{
    if octet == b'\r' {
        LinePlace::Cr
    } else {
        LinePlace::Inside
    }
}

// A message, or the beginning of one, in one piece.
pub fn receive(input: &[u8], area: &mut [u8]) -> (DataPart, Fed)
    ensures within { result.1.taken ≤ length input.now }
    ensures all { result.1.ended ≡ false → result.1.taken ≡ length input.now }
    ensures after { DataAfter result.1.ended (take result.1.taken input.now) result.0 area.old area.new }
    ensures messages { MessageLaws }
    ensures facts { MessageFacts }
    ensures settled { DataLaws }
{
    let mut part = DataPart::new();
    let fed = part.feed(input, area);
    (part, fed)
}
