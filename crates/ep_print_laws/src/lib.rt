//! Laws of printed texts: what is printed is read again as what it was. Each is the contract of a function that does
//! nothing.
#![tactic(auto)]

ghost use Rattle.ep_print_laws.specs.Answered.{AnswerSpellsItsLettings, ValueIsReadAgain};
ghost use Rattle.ep_print_laws.specs.GivenBack.{AnswerGivesItselfBack, AnswerGivesValuesBack, AnswerTextIsReadAgain, BoundDomainsAreNear, BoundNamesAreNames};
ghost use Rattle.ep_print_laws.specs.Printed.{PrintedModelIsReadAgain, PrintedModelSpellsAgain};
ghost use Rattle.ep_print_laws.specs.ReadBack.{AnswerIsReadBack, SolutionIsJudgedOne};

use ep_parse_model::tokens_spell_one_text;

/// A model that some text spells is spelled by its printed text too, places aside, as a tree of the same height. So within
/// the limits of a text it is read again as the same model.
pub fn printed_models_are_read_again()
    ensures spelled { PrintedModelSpellsAgain }
    ensures read { PrintedModelIsReadAgain }
{}

/// The text of an answer is a parameter text: it has a letting for each of the answer's values, in their order, and nothing
/// else. Each name has to be one of the language, and each number to have at most 18 digits.
pub fn answers_are_parameter_texts()
    ensures { AnswerSpellsItsLettings }
{}

/// What stands in such a letting has the value that it was printed of, in both modes of undefinedness and whatever names
/// stand for: where a matrix has as many indices as parts, they ascend, and its numbers are of its scalar.
pub fn printed_values_are_read_again()
    ensures { ValueIsReadAgain }
{}

/// The lettings of an answer are a solution text without a fault, which gives an instance the values back that were
/// printed, each fitted into its domain: where they fit it and are in order. Where they are written as the instance states
/// them, as those of its answers are, it gives this same assignment back. The only limit that this reading may meet is
/// that of size, and it meets it exactly where the letting of one of the values is too large.
pub fn lettings_are_given_back()
    ensures values { AnswerGivesValuesBack }
    ensures assignment { AnswerGivesItselfBack }
{}

/// What a text that spells a model is bound to has decision variables that a text can name, and whose domains hold no
/// number past the limit of reach.
pub fn bound_variables_can_be_written()
    ensures domains { BoundDomainsAreNear }
    ensures names { BoundNamesAreNames }
{}

/// The text of an answer, read as a solution text, gives the instance the same assignment back, unless a limit is met: that
/// of a text's length or height, or that of size by one of its lettings.
pub fn answers_are_read_again()
    ensures { AnswerTextIsReadAgain }
{}

/// Whatever the text of an answer is read as, where a solution text is to be read: it is one without a fault, which gives
/// the instance the same assignment back, unless the letting of one of its values is too large; or the text is too long or
/// too high. It is never refused for its bytes, its numbers or its syntax.
pub fn answers_are_read_back()
    ensures { AnswerIsReadBack }
{
    tokens_spell_one_text();
    answers_are_read_again();
}

/// A solution that is read back is judged to be one, with the number of the objective where one is stated.
pub fn solutions_are_judged_so()
    ensures { SolutionIsJudgedOne }
{}
