ghost use Rattle.protocol.specs.Buffers.{BufferLaws, LinePushed, LineStands, kept};
ghost use Rattle.protocol.specs.Lines.{LineLaws, trim};
ghost use Rattle.std.specs.Prelude.{◌≡◌, true, false, [], replicate, ◌≢◌};

// The most octets that a line may have, its CR LF among them.
pub const LONGEST: usize = 538;

// The line that is coming in: its octets, as far as a line may go, and whether more came. Of a line that is too long the octets that
// were kept are told too, so that both stand side by side, in fixed memory.
#[derive(Clone, Copy)]
pub struct LineBuffer {
    octets: [u8; LONGEST],
    used: usize,
    long: bool,
    cr: bool,
}

impl LineBuffer {
    pub fn new() -> LineBuffer
        ensures zero { result.octets ≡ replicate 538 0 }
        ensures stands { LineStands [] result }
        ensures lines { LineLaws }
        ensures buffers { BufferLaws }
    {
        LineBuffer {
            octets: [0; LONGEST],
            used: 0,
            long: false,
            cr: false,
        }
    }

    // Takes one octet, and answers whether it ended the line.
    pub fn push(&mut self, octet: u8) -> bool
        ensures { LinePushed self.old self.new octet result }
    {
        if self.cr && octet == b'\n' {
            self.close();
            return true;
        }
        self.keep(octet);
        false
    }

    // The LF after a CR: the CR is no more among the octets kept.
    fn close(&mut self)
        requires { self.old.cr ≡ true }
        ensures { LinePushed self.old self.new 10 true }
    {
        if !self.long {
            self.long = self.used >= LONGEST;
            self.used = self.used.saturating_sub(1);
        }
    }

    // Any other octet.
    fn keep(&mut self, octet: u8)
        requires { self.old.cr ≡ true → octet ≢ 10 }
        ensures { LinePushed self.old self.new octet false }
    {
        self.cr = octet == b'\r';
        if self.used < LONGEST {
            self.octets[self.used] = octet;
            self.used += 1;
        } else {
            self.long = true;
        }
    }

    // The text of a line that has ended; of a line that is too long, the octets of it that were kept.
    pub fn text(&self) -> &[u8]
        ensures { result.now ≡ kept self.now }
    {
        &self.octets[..self.used.min(LONGEST)]
    }

    pub fn is_long(&self) -> bool
        ensures { result ≡ self.now.long }
    {
        let long = self.long;
        long
    }

    // Starts the next line.
    pub fn clear(&mut self)
        ensures { LineStands [] self.new }
    {
        self.used = 0;
        self.long = false;
        self.cr = false;
    }
}

// A text less the spaces at its end.
pub fn trimmed(text: &[u8]) -> &[u8]
    ensures { result.now ≡ trim text.now }
{
    let mut kept = text;
    while let [front @ .., b' '] = kept {
        kept = front;
    }
    kept
}
