// Replays the fixed lists of the bought checker's answers through the entries that the workbench calls: each line is asked again, and what comes back is
// compared byte by byte. Prints for each list its lines and how many were answered as they say.
#![tactic(auto)]

ghost use Rattle.std.specs.Prelude.{IfOk, ◌≤◌, length};

use std::fs::{self, File};
use std::io::{self, Read, Seek, SeekFrom};

// ---- a line's fields

const PAGE: usize = 512;

// A field's bytes, at the start of a page of zeros.
// The page stands whole: an entry's zeros after the bytes are compared too, and no memory is taken.
#[derive(Drop)]
struct Bytes {
    page: [u8; PAGE],
    length: usize,
    ghost within: { length ≤ 512 },
}

impl Bytes {
    fn as_slice(&self) -> &[u8] {
        &self.page[..self.length]
    }

    // Whether an entry wrote these bytes, and zeros after them.
    fn are(&self, page: &[u8; PAGE], length: u64) -> bool {
        length == self.length as u64 && *page == self.page
    }
}

// The value of an upper-case hexadecimal digit: std's `to_digit` takes lower-case ones too, which end a field here.
fn digit(byte: u8) -> Option<u8> {
    match byte {
        b'0'..=b'9' => Some(byte - b'0'),
        b'A'..=b'F' => Some(byte - b'A' + 10),
        _ => None,
    }
}

// What is left of a part of a list, from a line's next field on. A line with too few fields takes those of the next lines.
#[derive(Drop)]
struct Fields<'a> {
    rest: &'a [u8],
}

impl Fields<'_> {
    fn skip(&mut self) {
        self.rest = match self.rest.iter().position(|byte| *byte == b' ') {
            Some(end) => &self.rest[end + 1..],
            None => &[],
        };
    }

    // Hexadecimal digits by twos, until the page is full or a first one is no digit. A second one that is no digit counts as 0.
    fn bytes(&mut self) -> Bytes {
        let mut page = [0u8; PAGE];
        let mut length = 0;
        let mut digits = self.rest.iter();
        for cell in page.iter_mut() {
            let Some(high) = digits.next().copied().and_then(digit) else {
                break;
            };
            let low = digits.next().copied().and_then(digit).unwrap_or(0);
            *cell = high << 4 | low;
            length += 1;
        }
        self.skip();
        Bytes { page, length }
    }

    // Decimal digits, of which the last five count.
    fn number(&mut self) -> u32 {
        let mut number = 0;
        for byte in self.rest.iter().take_while(|byte| byte.is_ascii_digit()) {
            number = number % 10000 * 10 + u32::from(byte - b'0');
        }
        self.skip();
        number
    }
}

// ---- one line

// formula environment names number output
fn infers(mut fields: Fields<'_>) -> bool {
    let formula = fields.bytes();
    let environment = fields.bytes();
    let names = fields.number();
    let due_number = fields.number();
    let due = fields.bytes();
    let mut output = [0xAAu8; PAGE];
    let mut place = 0u64;
    let mut length = 0u64;
    let mut steps = 0u64;
    let number = host::typecheck_infer(
        formula.as_slice(),
        environment.as_slice(),
        names,
        u64::MAX,
        &mut output,
        &mut place,
        &mut length,
        &mut steps,
    );
    number == due_number && due.are(&output, length)
}

// text table number record: what the bought reader does not take is refused 4 or 5
fn reads(mut fields: Fields<'_>) -> bool {
    let text = fields.bytes();
    let table = fields.bytes();
    let taken = fields.number() == 0;
    let due = fields.bytes();
    let mut page = [0u8; PAGE];
    let mut place = 0u64;
    let mut length = 0u64;
    let number = host::typecheck_read_text(
        text.as_slice(),
        table.as_slice(),
        &mut page,
        &mut place,
        &mut length,
    );
    let right = if taken {
        number == 0
    } else {
        matches!(number, 4 | 5)
    };
    right && due.are(&page, length)
}

// record table text
fn writes(mut fields: Fields<'_>) -> bool {
    let record = fields.bytes();
    let table = fields.bytes();
    let due = fields.bytes();
    let mut page = [0u8; PAGE];
    let mut place = 0u64;
    let mut length = 0u64;
    let number = host::typecheck_write_text(
        record.as_slice(),
        table.as_slice(),
        &mut page,
        0,
        &mut place,
        &mut length,
    );
    number == 0 && due.are(&page, length)
}

// Whether the line that a part of a list begins with is answered as it says.
fn agrees(list: &[u8]) -> bool {
    let mut fields = Fields { rest: list };
    match list.first() {
        Some(b'r') => {
            fields.skip();
            reads(fields)
        }
        Some(b'w') => {
            fields.skip();
            writes(fields)
        }
        _ => infers(fields),
    }
}

// ---- a list

// How many lines were asked, and how many were answered as they say.
#[derive(Drop)]
struct Tally {
    asked: u64,
    answered: u64,
}

impl Tally {
    // Asks the whole lines of a part of a list, and answers how many bytes they are.
    fn replay(&mut self, list: &[u8]) -> usize {
        let mut rest = list;
        while let Some(end) = rest.iter().position(|byte| *byte == b'\n') {
            if !rest.starts_with(b"#") {
                self.asked = self.asked.wrapping_add(1);
                if agrees(rest) {
                    self.answered = self.answered.wrapping_add(1);
                }
            }
            rest = &rest[end + 1..];
        }
        list.len() - rest.len()
    }
}

// Reads until the buffer is full or the file ends, and answers how many bytes it put at the buffer's start.
// A loop: read_exact does not say how many came before the end, and read_to_end takes memory and can fail for want of it.
fn read_full(file: &mut File, buffer: &mut [u8]) -> io::Result<usize>
    ensures { IfOk result (λ n. n ≤ length buffer.new) }
{
    let mut done = 0;
    while done < buffer.len() {
        match file.read(&mut buffer[done..])? {
            0 => break,
            n => done += n,
        }
    }
    Ok(done)
}

// A list is read in parts, each from after the last whole line of the one before. A part without a whole line ends it.
fn replay(rt: &HostRuntime, name: &str, list: &mut File) -> io::Result<()> {
    let mut tally = Tally {
        asked: 0,
        answered: 0,
    };
    let mut from = 0u64;
    let mut part = [0u8; 65536];
    for _ in 0..1000 {
        list.seek(SeekFrom::Start(from))?;
        let n = read_full(list, &mut part)?;
        let used = tally.replay(&part[..n]);
        if used == 0 {
            break;
        }
        from = from.wrapping_add(used as u64);
    }
    let Tally { asked, answered } = tally;
    println!(rt; "{name}: {asked} lines, {answered} answered as they say")
}

fn main(rt: HostRuntime) -> io::Result<()> {
    for name in ["answers.txt", "texts.txt"] {
        match fs::open(&rt, name) {
            Ok(mut list) => replay(&rt, name, &mut list)?,
            Err(error) => eprintln!(&rt; "{name}: {error}")?,
        }
    }
    Ok(())
}
