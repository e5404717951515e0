// The C archive of the crate `exports_text`: its functions are that crate's, with its promises.
#![tactic(auto)]

ghost use Rattle.planner.specs.Answer.{six_places, three_places, Answers};

// The answer to a text, with six decimals: as much of it as `out` has room for, and zeros behind it. How long it is, is answered.
#[unsafe(no_mangle)]
pub extern "C" fn bf_answer(text: &[u8], out: &mut [u8]) -> usize
    ensures { Answers six_places text.now out.old result out.new }
{
    exports_text::bf_answer(text, out)
}

// The same with three decimals.
#[unsafe(no_mangle)]
pub extern "C" fn bf_answer_three(text: &[u8], out: &mut [u8]) -> usize
    ensures { Answers three_places text.now out.old result out.new }
{
    exports_text::bf_answer_three(text, out)
}
