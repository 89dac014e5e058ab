// The lent memory is cleared after use.
#![tactic(auto)]

ghost use Rattle.std.specs.Prelude.{◌≡◌, ◌++◌, ◌-◌, length, take, replicate};
ghost use Rattle.memory.specs.Memory.{cleared};

// One value from a place on. A loop: `fill` clones, and of any T it is not known that a clone cannot fail and is the value.
fn refill<T: Copy>(items: &mut [T], from: usize, value: T)
    ensures { items.new ≡ take from items.old ++ replicate (length items.old - from) value }
{
    if from < items.len() {
        for item in &mut items[from..] {
            *item = value;
        }
    }
}

// Two names: zero is no value of any T, and `cleared` says zero. Each has its must-fail edit.

// Zeros from a place on.
pub fn clear_bytes(bytes: &mut [u8], from: usize)
    ensures { bytes.new ≡ cleared from bytes.old }
{
    refill(bytes, from, 0);
}

// Zeros from a place on.
pub fn clear_words(words: &mut [u32], from: usize)
    ensures { words.new ≡ cleared from words.old }
{
    refill(words, from, 0);
}
