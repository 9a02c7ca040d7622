//! What the text of a problem comes to is one thing.

ghost use Rattle.std.specs.Prelude.{◌≡◌, ℕ, List, Result};
ghost use Rattle.opb_solve.specs.Replies.{OpbComesTo};
ghost use Rattle.opb_solve.specs.declared.replies.OpbRefusal.{OpbRefusal};
ghost use Rattle.opb_text.specs.Contents.{OpbContent};

use opb_text::opb_texts_have_one_meaning;

/// Each text comes to a problem or to a refusal, and to one of these alone.
pub fn opb_texts_come_to_one_thing()
    ensures once { (text : List ℕ) (one other : Result OpbContent OpbRefusal) →
        OpbComesTo text one → OpbComesTo text other → one ≡ other }
    ensures some { (text : List ℕ) → (outcome : Result OpbContent OpbRefusal) × OpbComesTo text outcome }
{
    opb_texts_have_one_meaning();
}
