// The program `totals`: a bundle on standard input, gathered in checked mode with the sizes of `gather`. It prints the page of totals, or
// `refused` with the refusal's number, text, line and field.
#![tactic(auto)]

ghost use Rattle.std.specs.Prelude.{◌≡◌, length};
ghost use Rattle.model.specs.Limits.{program_words, program_output};
ghost use Rattle.model.specs.Tags.{default_tag};
ghost use Rattle.model.specs.Gather.{printed_answer};
ghost use Rattle.model_totals.specs.Totals.{totals_program};
ghost use Rattle.model_totals.specs.Totals.{totals as totals_of};
ghost use Rattle.program_io.specs.Front.{Fronts};

use model::{Fault, Refusal};

const MAX_INPUT: usize = program_io::MAX_INPUT;

const SCRATCH_WORDS: usize = lcov::PROGRAM_WORDS;

const MAX_OUTPUT: usize = lcov::PROGRAM_OUTPUT;

// What is printed for a bundle comes to the front of out. Answers how many bytes it is.
fn totals(bundle: &[u8], scratch: &mut [u64], out: &mut [u8]) -> usize
    requires { (length scratch.old ≡ program_words) × (length out.old ≡ program_output) }
    ensures { Fronts result out.new (printed_answer (totals_of default_tag bundle.now program_words program_output)) }
{
    match lcov::totals(bundle, scratch, out) {
        Ok(n) => n,
        Err(refusal) => program_io::put_refusal(refusal, out),
    }
}

// The page of any input; one that is too long is no bundle.
fn answer(input: &[u8], scratch: &mut [u64], out: &mut [u8]) -> usize
    requires { (length scratch.old ≡ program_words) × (length out.old ≡ program_output) }
    ensures { Fronts result out.new (totals_program input.now) }
{
    let is_too_long = MAX_INPUT < input.len();
    if is_too_long {
        return program_io::put_refusal(Refusal::from(Fault::MalformedBundle), out);
    }
    totals(input, scratch, out)
}

fn main() {
    // one byte more than is allowed, so that a longer input is seen
    let mut input = [0u8; MAX_INPUT + 1];
    let mut scratch = [0u64; SCRATCH_WORDS];
    let mut out = [0u8; MAX_OUTPUT];
    let n = io::read_full(0, &mut input);
    let len = answer(&input[..n], &mut scratch, &mut out);
    io::write_all(1, &out[..len]);
}
