// The longest loop of the worked machine, computed word by word. It is a crate of its own since it takes as long to check as all the other
// pages together, and more.
#![tactic(auto)]

ghost use Rattle.std.specs.Prelude.{◌≡◌, ◌+◌, [], ◌∷◌};
ghost use Rattle.machine.specs.Board.{Spent};
ghost use Rattle.machine.specs.Calls.{Run, Ran};
ghost use Rattle.worked.specs.Worked.{Two, Lsrm, cost};
ghost use Rattle.worked.specs.Page.{blank, runs, reads, longest, answer_at, words_of};
ghost use Rattle.longest.specs.LongestPage.{LongestPage, long_calls};

// The page as the definitions compute it.
fn longest_page()
    ensures { LongestPage }
{}

// The words of the longest loop: all that two runs executed, but the word that halts; and all that a run with just that budget executes.
pub fn words_of_the_longest_loop() -> u64
    ensures costs { result ≡ cost Two (Lsrm 1 2) blank }
    ensures board { result + 1 ≡ words_of (answer_at (runs Two longest long_calls).answers 0) + words_of (answer_at (runs Two longest long_calls).answers 1) }
    ensures reading { result + 1 ≡ words_of (answer_at (reads Two longest long_calls).answers 0) + words_of (answer_at (reads Two longest long_calls).answers 1) }
    ensures board_alone { (runs Two longest (Run result ∷ [])).answers ≡ Ran result Spent ∷ [] }
    ensures reading_alone { (reads Two longest (Run result ∷ [])).answers ≡ Ran result Spent ∷ [] }
{
    longest_page();
    196_608
}
