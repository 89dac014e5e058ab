// The two text entries for a host in another language: numbers and byte slices only. The result is the answer's number; place and length are
// always written, and the page is as `type_text` leaves it.
#![tactic(auto)]

ghost use Rattle.std.specs.Prelude.{◌≡◌};
ghost use Rattle.type_text.specs.Answer.{number_of, place_of, length_of, read_answer, read_page, write_answer, write_page};

use type_text::Refusal;
use types::Fault;

// An answer as three numbers.
#[derive(Clone, Copy)]
pub struct Told {
    pub number: u32,
    pub place: u64,
    pub length: u64,
}

impl Told {
    fn new(number: u32, place: usize, length: usize) -> Self
        ensures { (result.number ≡ number) × (result.place ≡ place) × (result.length ≡ length) }
    {
        Told {
            number,
            place: place as u64,
            length: length as u64,
        }
    }
}

pub fn tell(a: Result<usize, Refusal>) -> Told
    ensures number_value { result.number ≡ number_of a }
    ensures place_value { result.place ≡ place_of a }
    ensures length_value { result.length ≡ length_of a }
{
    match a {
        Ok(n) => Told::new(0, 0, n),
        Err(Refusal::Bad) => Told::new(2, 0, 0),
        Err(Refusal::At(Fault::Malformed(p))) => Told::new(4, p, 0),
        Err(Refusal::At(Fault::Beyond(p))) => Told::new(5, p, 0),
        Err(Refusal::NoRoom) => Told::new(8, 0, 0),
    }
}

// Hands an answer over: its place and length are written, its number is the result.
fn hand_over(a: Result<usize, Refusal>, place: &mut u64, length: &mut u64) -> u32
    ensures value { result ≡ number_of a }
    ensures place_after { place.new ≡ place_of a }
    ensures length_after { length.new ≡ length_of a }
{
    let t = tell(a);
    *place = t.place;
    *length = t.length;
    t.number
}

pub fn typecheck_read_text(
    text: &[u8],
    table: &[u8],
    page: &mut [u8],
    place: &mut u64,
    length: &mut u64,
) -> u32
    ensures value { result ≡ number_of (read_answer text.now table.now page.old) }
    ensures place_after { place.new ≡ place_of (read_answer text.now table.now page.old) }
    ensures length_after { length.new ≡ length_of (read_answer text.now table.now page.old) }
    ensures page_after { page.new ≡ read_page text.now table.now page.old }
{
    hand_over(type_text::read(text, table, page), place, length)
}

pub fn typecheck_write_text(
    bytes: &[u8],
    table: &[u8],
    page: &mut [u8],
    position: u64,
    place: &mut u64,
    length: &mut u64,
) -> u32
    ensures value { result ≡ number_of (write_answer bytes.now table.now page.old position) }
    ensures place_after { place.new ≡ place_of (write_answer bytes.now table.now page.old position) }
    ensures length_after { length.new ≡ length_of (write_answer bytes.now table.now page.old position) }
    ensures page_after { page.new ≡ write_page bytes.now table.now page.old position }
{
    let written = type_text::write(bytes, table, page, position as usize);
    hand_over(written, place, length)
}
