// Putting bytes into a lent page, and reckoning what of it is left.
ghost use Rattle.std.specs.Prelude.{◌≡◌, ℕ, ◌+◌, ◌≤◌, length};
ghost use Rattle.type_text.specs.Page.{spend_of, Splice};

// What is left of a page after n bytes more; None: it is overrun. Nothing is added up, so nothing can wrap.
#[tactic(auto, unfolding(crate::specs::Page::spend_of))]
pub(crate) fn spend(room: Option<usize>, n: usize) -> Option<usize>
    ensures { result ≡ spend_of room n }
{
    room?.checked_sub(n)
}

// Puts the bytes of src into the page from an offset on.
pub(crate) fn copy(page: &mut [u8], from: usize, src: &[u8]) -> usize
    requires { from + length src.now ≤ length page.old }
    ensures { Splice from src.now page.old page.new result }
{
    page[from..from + src.len()].copy_from_slice(src);
    src.len()
}
