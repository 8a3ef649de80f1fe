// The lines of a run, printed into a lent buffer.
ghost use Rattle.std.specs.Prelude.{◌≡◌, ◌≤◌, ◌%◌, [], ◌∷◌, ◌++◌, length};
ghost use Rattle.rules.specs.Trace as rules;
ghost use Rattle.std.specs.Fmt as text;

use rules::Refusal;

// A refusal, and the place of the record that met it.
#[derive(Clone, Copy, PartialEq, Eq, Debug)]
pub struct Refused {
    pub refusal: Refusal,
    pub place: usize,
}

// A line that is printed, without its newline.
#[derive(Clone, Copy, PartialEq, Eq, Debug)]
pub enum Line<'a> {
    // `+ time edges`
    Advanced { time: u64, edges: u64 },
    // `R port byte`
    Read { port: u16, byte: u8 },
    // `W port byte`
    Wrote { port: u16, byte: u8 },
    // `I vector`
    Acknowledged(u8),
    // `Q tick`
    Queued(u64),
    // `# text`
    Note(&'a [u8]),
    // `! number layer place`
    Refused(Refused),
    // `. records`
    Records(usize),
}

// Borrows a buffer, and prints into it from its start on. What finds no room is dropped. The place stands beside the whole
// buffer, since a run answers it.
// Nothing is printed by `write!`: that may answer an error, and then promises nothing of what was printed.
#[derive(Drop)]
pub struct Output<'a> {
    bytes: &'a mut [u8],
    place: usize,
    ghost within: { place ≤ length bytes.now },
}

// The upper-case hexadecimal digit of the lowest four bits.
fn hex_digit(n: u8) -> u8
    ensures { result ≡ rules.hex_digit (n % 16) }
{
    b"0123456789ABCDEF"[usize::from(n % 16)]
}

impl<'a> Output<'a> {
    ghost use Rattle.lines.specs.Printing.{Printed, bytes_of, room_of, line_bytes};

    // Stands at the start of the buffer.
    pub fn new(bytes: &'a mut [u8]) -> Output<'a>
        ensures bytes { bytes_of result ≡ bytes.old }
        ensures place { result.place ≡ 0 }
        ensures lender { result.bytes.ghost_name ≡ bytes.entry.ghost_name }
    {
        Output { bytes, place: 0 }
    }

    // How many bytes were printed.
    pub fn place(&self) -> usize
        ensures { result ≡ self.now.place }
    {
        self.place
    }

    // How many bytes can still be printed.
    pub fn room(&self) -> usize
        ensures { result ≡ room_of self.now }
    {
        self.bytes.len() - self.place
    }

    // Prints the text, as far as there is room. That the parts of a line make the whole is an answer for each function below: the
    // lemma `printed_then`, named on them for the check, closed none of these goals.
    fn text(&mut self, text: &[u8])
        ensures { Printed self.old text.now self.new }
    {
        let len = text.len().min(self.room());
        let end = self.place + len;
        self.bytes[self.place..end].copy_from_slice(&text[..len]);
        self.place = end;
    }

    // Numbers are printed byte by byte, so a byte is stored by itself: copying a text of one byte is a call to copy memory.
    fn byte(&mut self, byte: u8)
        ensures { Printed self.old (byte ∷ []) self.new }
    {
        if self.place < self.bytes.len() {
            self.bytes[self.place] = byte;
            self.place += 1;
        }
    }

    // The digits in front of the last one are printed first.
    fn decimal(&mut self, n: u64)
        ensures { Printed self.old (text.decimal n) self.new }
    {
        if n >= 10 {
            self.decimal(n / 10);
        }
        self.byte(b'0' + (n % 10) as u8);
    }

    fn hex_byte(&mut self, byte: u8)
        ensures { Printed self.old (rules.hex_byte byte) self.new }
    {
        self.byte(hex_digit(byte / 16));
        self.byte(hex_digit(byte));
    }

    fn hex_port(&mut self, port: u16)
        ensures { Printed self.old (rules.hex_port port) self.new }
    {
        let [high, low] = port.to_be_bytes();
        self.hex_byte(high);
        self.hex_byte(low);
    }

    // How a line starts.
    fn mark(&mut self, mark: u8)
        ensures { Printed self.old (mark ∷ rules.space ∷ []) self.new }
    {
        self.byte(mark);
        self.byte(b' ');
    }

    fn access(&mut self, mark: u8, port: u16, byte: u8)
        ensures { Printed self.old (rules.access_line mark port byte) self.new }
    {
        self.mark(mark);
        self.hex_port(port);
        self.byte(b' ');
        self.hex_byte(byte);
        self.byte(b'\n');
    }

    // A mark and one number.
    fn counted(&mut self, mark: u8, n: u64)
        ensures { Printed self.old (mark ∷ rules.space ∷ (text.decimal n ++ (rules.newline ∷ []))) self.new }
    {
        self.mark(mark);
        self.decimal(n);
        self.byte(b'\n');
    }

    fn advanced(&mut self, time: u64, edges: u64)
        ensures { Printed self.old (rules.advance_line time edges) self.new }
    {
        self.mark(b'+');
        self.decimal(time);
        self.byte(b' ');
        self.decimal(edges);
        self.byte(b'\n');
    }

    // `! number layer place`
    pub fn refused(&mut self, refusal: Refusal, place: usize)
        ensures { Printed self.old (rules.refusal_line refusal place) self.new }
    {
        self.mark(b'!');
        self.decimal(u64::from(refusal.number()));
        self.byte(b' ');
        self.byte(refusal.layer().letter());
        self.byte(b' ');
        self.decimal(place as u64);
        self.byte(b'\n');
    }

    fn note(&mut self, text: &[u8])
        ensures { Printed self.old (rules.note_line text.now) self.new }
    {
        self.mark(b'#');
        self.text(text);
        self.byte(b'\n');
    }

    fn acknowledged(&mut self, vector: u8)
        ensures { Printed self.old (rules.vector_line vector) self.new }
    {
        self.mark(b'I');
        self.hex_byte(vector);
        self.byte(b'\n');
    }

    // `. records`
    pub fn records(&mut self, count: usize)
        ensures { Printed self.old (rules.count_line count) self.new }
    {
        self.counted(b'.', count as u64);
    }

    // Prints a line and its newline, as far as there is room.
    pub fn line(&mut self, line: Line<'_>)
        ensures { Printed self.old (line_bytes line.entry) self.new }
    {
        match line {
            Line::Advanced { time, edges } => self.advanced(time, edges),
            Line::Read { port, byte } => self.access(b'R', port, byte),
            Line::Wrote { port, byte } => self.access(b'W', port, byte),
            Line::Acknowledged(vector) => self.acknowledged(vector),
            Line::Queued(tick) => self.counted(b'Q', tick),
            Line::Note(text) => self.note(text),
            Line::Refused(Refused { refusal, place }) => self.refused(refusal, place),
            Line::Records(count) => self.records(count),
        }
    }
}
