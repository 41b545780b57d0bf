// The script check: rows 1 to 8, 13, 14, 10, then 15 on.
ghost use Rattle.std.specs.Prelude.{◌≡◌};
ghost use Rattle.records.specs.Refusals.{answered};
ghost use Rattle.scripts.specs.Run.{script_check};

use crate::entry::Entry;
use crate::form::check_form;
use crate::run::check_chain;
use columns::vocabulary::Vocabulary;
use records::chain::mark_chain;
use records::check_vocabulary;
use records::fields::Record;
use records::layout::{Layout, length_fits};
use records::refusals::{Refusal, Row, require};

// The script check: the number of steps, or the first refusal in table order. Nothing is written.
#[tactic(auto, unfolding(crate::specs::Run::script_check, crate::specs::Form::form_check))]
pub fn check_script(v: &[u8], s: &[u8]) -> Result<usize, Refusal>
    ensures { answered result ≡ script_check v.now s.now }
{
    check_vocabulary(v)?;
    require(length_fits::<Entry>(s), Row::ScriptLength, 0)?;
    let mut marks = [false; Record::LIMIT];
    mark_chain(v, &mut marks);
    let header = Entry::read_at(s, 0);
    let vocabulary = Vocabulary {
        bytes: v,
        marks: &marks,
    };
    check_form(&vocabulary, s, header)?;
    check_chain(&vocabulary, s, header)
}
