// The program `gather` (SPEC 7.3): a bundle on standard input, checked mode, 8,192 words of scratch and 65,536 bytes of output. It prints
// the joined tracefile, or `refused` with the refusal's number, text, line and field.
#![tactic(auto)]

ghost use Rattle.std.specs.Prelude.{◌≡◌, length};
ghost use Rattle.model.specs.declared.Mode.TheVariants.{Checked};
ghost use Rattle.model.specs.Limits.{program_words, program_output};
ghost use Rattle.model.specs.Tags.{default_tag};
ghost use Rattle.model.specs.Gather.{printed_answer, gather_program};
ghost use Rattle.model.specs.Gather.{gather as gatherOf};
ghost use Rattle.program_io.specs.Front.{Fronts};

use model::{Fault, Refusal};

const MAX_INPUT: usize = program_io::MAX_INPUT;

const SCRATCH_WORDS: usize = lcov::PROGRAM_WORDS;

const MAX_OUTPUT: usize = lcov::PROGRAM_OUTPUT;

// What is printed for a bundle comes to the front of out. Answers how many bytes it is.
fn gather(bundle: &[u8], scratch: &mut [u64], out: &mut [u8]) -> usize
    requires { (length scratch.old ≡ program_words) × (length out.old ≡ program_output) }
    ensures { Fronts result out.new (printed_answer (gatherOf default_tag Checked bundle.now program_words program_output)) }
{
    match lcov::gather_checked(bundle, scratch, out) {
        Ok(n) => n,
        Err(refusal) => program_io::put_refusal(refusal, out),
    }
}

// Gathers any input; one that is too long is no bundle.
fn answer(input: &[u8], scratch: &mut [u64], out: &mut [u8]) -> usize
    requires { (length scratch.old ≡ program_words) × (length out.old ≡ program_output) }
    ensures { Fronts result out.new (gather_program input.now) }
{
    let is_too_long = MAX_INPUT < input.len();
    if is_too_long {
        return program_io::put_refusal(Refusal::from(Fault::MalformedBundle), out);
    }
    gather(input, scratch, out)
}

fn main() {
    // one byte more than is allowed, so that a longer input is seen
    let mut input = [0u8; MAX_INPUT + 1];
    let mut scratch = [0u64; SCRATCH_WORDS];
    let mut out = [0u8; MAX_OUTPUT];
    let n = io::read_full(0, &mut input);
    let len = answer(&input[..n], &mut scratch, &mut out);
    io::write_all(1, &out[..len]);
}
