// The restrictions (kinds 7 and 8), and the words that hold a bit for each.
ghost use Rattle.std.specs.Prelude.{◌≡◌};
ghost use Rattle.types.specs.Code.Settling.{RestrictionsListed, truth_word};
ghost use Rattle.types.specs.Code.Words.{other_role_word};

use crate::truth::push_bit;
use crate::type_data::{Plan, TypeData};
use crate::vocabulary::SmallVocabulary;
use records::fields::Record;
use records::kinds::Kind;
use records::layout::Layout;

// A restriction's place, filler and role, and whether it is of kind 8.
#[derive(Clone, Copy, Default)]
pub struct Restriction {
    pub place: u16,
    pub filler: u16,
    pub role: u16,
    pub universal: bool,
}

impl SmallVocabulary<'_> {
    // Lists the restrictions in record order; how many there are.
    pub(crate) fn list_restrictions(&self, list: &mut [Restriction; TypeData::ATOMS]) -> usize
        ensures { RestrictionsListed self.now.bytes.now list.new result }
    {
        let mut count = 0;
        for i in 0..self.bytes.len() / Record::SIZE {
            let fields = Record::read_at(self.bytes, i);
            if fields.is_restriction() {
                list[count] = Restriction {
                    place: i as u16,
                    filler: fields.b,
                    role: fields.a,
                    universal: Kind::of(fields.kind) == Some(Kind::Universal),
                };
                count += 1;
            }
        }
        count
    }
}

// Which restrictions hold at a type with these truths, and which fillers: in both words bit m is that of restriction m,
// negated for kind 8.
#[derive(Clone, Copy)]
pub struct Words {
    pub held: u16,
    pub filling: u16,
}

impl Plan<'_> {
    // The words, built from the top.
    pub fn words(&self, values: &[bool; Record::LIMIT]) -> Words
        ensures held_value { result.held ≡ truth_word values.now (λ r. r.place) self.now.restrictions.now }
        ensures filling_value { result.filling ≡ truth_word values.now (λ r. r.filler) self.now.restrictions.now }
    {
        let mut held = 0;
        let mut filling = 0;
        for m in (0..self.restrictions.len()).rev() {
            let Restriction {
                place,
                filler,
                universal,
                ..
            } = self.restrictions[m];
            held = push_bit(held, values[place as usize] ^ universal);
            filling = push_bit(filling, values[filler as usize] ^ universal);
        }
        Words { held, filling }
    }

    // The word of the restrictions of other roles than this.
    pub fn other_roles(&self, role: u16) -> u16
        ensures { result ≡ other_role_word self.now.v.now role }
    {
        let mut word = 0;
        for m in (0..self.restrictions.len()).rev() {
            word = push_bit(word, self.restrictions[m].role != role);
        }
        word
    }
}
