//! Laws of whole commands. Each is the contract of a function that does nothing.
#![tactic(auto)]

ghost use Rattle.std.specs.Prelude.{ℕ, List};
ghost use Rattle.ep_base.specs.Outside.{Held};
ghost use Rattle.ep_driver.specs.Outcomes.{Outcome, Task};
ghost use Rattle.ep_driver.specs.Shown.{Show};
ghost use Rattle.ep_driver_laws.specs.Certificates.{AnswersCertify, ChecksSaySo, CubesCertify, ListsCertify};
ghost use Rattle.ep_driver_laws.specs.Generated.{NumbersAreNeverRefused};

use ep_gen_laws::each_number_gives_an_instance;
use ep_parse_model::texts_have_one_answer;
use log_check::valid_logs_are_accepted;
use opb_solve::opb_texts_come_to_one_thing;

/// Whatever the words and the held files are, they show something: a task with what it needs, or refusals. That they show one thing
/// alone is what `one_job_for_words`, `texts_have_one_answer`, `opb_texts_come_to_one_thing`, `cnf_texts_have_one_meaning` and
/// `log_texts_have_one_meaning` say.
pub fn every_command_shows()
    ensures { (words : List (List ℕ)) (held : Held) → (outcome : Outcome Task) × Show words held outcome }
{
    opb_texts_come_to_one_thing();
}

/// What a search writes certifies its answer to a reader who has nothing but the bytes: of a log that shows an answer or a list, and a
/// text of its formula, which is what `run` writes (`answered`, `formula_file`, `log_file`). By the text's own lines of cells, the
/// assignments that satisfy the clauses before those that it says were added tell exactly the instance's solutions, and those that satisfy
/// all clauses tell exactly what is left: the solutions that are better than the one that was said, or that weren't listed. No line of
/// the text of the steps is bad over these clauses, and beside an optimum, "no solution" and a complete list they are verified. Where the
/// conflicts of a cube were spent, the clauses that were added are its literals, and left are the solutions that are told in it.
pub fn written_files_certify()
    ensures answers { AnswersCertify }
    ensures lists { ListsCertify }
    ensures cubes { CubesCertify }
{
    valid_logs_are_accepted();
}

/// A command that checks two files is settled by nothing but the verdict on what their texts spell.
pub fn checks_say_so()
    ensures { ChecksSaySo }
{}

/// Words that want the texts of a number to be solved show the task of an instance, whatever files hold, and are never refused: no
/// status of a text or of a limit comes of them.
pub fn generated_texts_are_never_refused()
    ensures { NumbersAreNeverRefused }
{
    texts_have_one_answer();
    each_number_gives_an_instance();
}
