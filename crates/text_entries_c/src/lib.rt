// The archive of the two text entries alone: each entry of `text_entries` under its own name, with the same clauses.
// A slice crosses as a pointer and then a length.
#![tactic(auto)]

ghost use Rattle.std.specs.Prelude.{◌≡◌};
ghost use Rattle.type_text.specs.Answer.{number_of, place_of, length_of, read_answer, read_page, write_answer, write_page};

#[unsafe(no_mangle)]
pub extern "C" fn typecheck_read_text(
    text: &[u8],
    table: &[u8],
    page: &mut [u8],
    place: &mut u64,
    length: &mut u64,
) -> u32
    ensures value { result ≡ number_of (read_answer text.now table.now page.old) }
    ensures place_after { place.new ≡ place_of (read_answer text.now table.now page.old) }
    ensures length_after { length.new ≡ length_of (read_answer text.now table.now page.old) }
    ensures page_after { page.new ≡ read_page text.now table.now page.old }
{
    text_entries::typecheck_read_text(text, table, page, place, length)
}

#[unsafe(no_mangle)]
pub extern "C" fn typecheck_write_text(
    bytes: &[u8],
    table: &[u8],
    page: &mut [u8],
    position: u64,
    place: &mut u64,
    length: &mut u64,
) -> u32
    ensures value { result ≡ number_of (write_answer bytes.now table.now page.old position) }
    ensures place_after { place.new ≡ place_of (write_answer bytes.now table.now page.old position) }
    ensures length_after { length.new ≡ length_of (write_answer bytes.now table.now page.old position) }
    ensures page_after { page.new ≡ write_page bytes.now table.now page.old position }
{
    text_entries::typecheck_write_text(bytes, table, page, position, place, length)
}
