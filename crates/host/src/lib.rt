// The four entries that the workbench calls, with numbers and slices. Each result is the answer's number; place, length and steps are always written.
// After this file a reader knows what a call leaves behind: what `infer_of`, `read_answer` and `write_answer` say, and nothing else. Signatures, with what is
// written through references, and clauses are those of the C interface (crate `host_c`), entry by entry. The two of text stand in `text_entries`.
#![tactic(auto)]

mod answer;

ghost use Rattle.std.specs.Prelude.{◌≡◌, length as List·length};
ghost use Rattle.inference.specs.Infer.{infer_of, output_after, work_after};

// Reads a type's text, and puts its record at the page's start; writes the text of a type record into the page, from a position on.
pub use text_entries::{typecheck_read_text, typecheck_write_text};

// Infers the types of a formula under an environment, at a capacity of the caller's, in work memory that is lent.
pub fn typecheck_infer_in(
    formula: &[u8],
    environment: &[u8],
    names: u32,
    capacity: u32,
    budget: u64,
    output: &mut [u8],
    work: &mut [u32],
    place: &mut u64,
    length: &mut u64,
    steps: &mut u64,
) -> u32
    ensures value { result ≡ (infer_of formula.now environment.now names capacity budget (List·length output.old) (List·length work.old)).number }
    ensures place_after { place.new ≡ (infer_of formula.now environment.now names capacity budget (List·length output.old) (List·length work.old)).place }
    ensures length_after { length.new ≡ (infer_of formula.now environment.now names capacity budget (List·length output.old) (List·length work.old)).size }
    ensures steps_after { steps.new ≡ (infer_of formula.now environment.now names capacity budget (List·length output.old) (List·length work.old)).steps }
    ensures output_after { output.new ≡ output_after (infer_of formula.now environment.now names capacity budget (List·length output.old) (List·length work.old)) output.old }
    ensures work_after { work.new ≡ work_after (infer_of formula.now environment.now names capacity budget (List·length output.old) (List·length work.old)) work.old }
{
    let inferred = typecheck::infer(formula, environment, names, capacity, budget, output, work);
    let told = answer::tell(inferred);
    *place = told.place;
    *length = told.length;
    *steps = told.steps;
    told.number
}

const CAPACITY: u32 = 2048;

// 3 words a node, and 4,096.
const WORDS: usize = 10240;

fn memory() -> [u32; WORDS]
    ensures { 10240 ≡ List·length result }
{
    [0; WORDS]
}

// The same at capacity 2,048, in memory of its own.
pub fn typecheck_infer(
    formula: &[u8],
    environment: &[u8],
    names: u32,
    budget: u64,
    output: &mut [u8],
    place: &mut u64,
    length: &mut u64,
    steps: &mut u64,
) -> u32
    ensures value { result ≡ (infer_of formula.now environment.now names 2048 budget (List·length output.old) 10240).number }
    ensures place_after { place.new ≡ (infer_of formula.now environment.now names 2048 budget (List·length output.old) 10240).place }
    ensures length_after { length.new ≡ (infer_of formula.now environment.now names 2048 budget (List·length output.old) 10240).size }
    ensures steps_after { steps.new ≡ (infer_of formula.now environment.now names 2048 budget (List·length output.old) 10240).steps }
    ensures output_after { output.new ≡ output_after (infer_of formula.now environment.now names 2048 budget (List·length output.old) 10240) output.old }
{
    let mut work = memory();
    typecheck_infer_in(
        formula,
        environment,
        names,
        CAPACITY,
        budget,
        output,
        &mut work,
        place,
        length,
        steps,
    )
}
