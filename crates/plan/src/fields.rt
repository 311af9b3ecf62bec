// Takes a text apart at its marks.
ghost use Rattle.std.specs.Prelude.{◌≡◌, slice_get};
ghost use Rattle.std.specs.Option.{option_map};
ghost use Rattle.plan.specs.Fields.{all_fields, fields_left, past, is_empty};

use crate::text::find;

/// The fields of a text that are left to read. A text of n marks has n + 1 fields, some perhaps empty.
#[derive(Clone, Copy)]
pub struct Fields<'a> {
    // The text of the fields that are left; none after the last.
    rest: Option<&'a [u8]>,
    // The byte between two fields.
    mark: u8,
    // The number of the next field.
    number: u32,
}

impl<'a> Fields<'a> {
    /// All fields of a text, counted from 1.
    #[tactic(auto, unfolding(crate::specs::Fields::fields_left))]
    pub(crate) fn of(text: &'a [u8], mark: u8) -> Fields<'a>
        ensures { fields_left result ≡ all_fields mark text.now }
    {
        Fields {
            rest: Some(text),
            mark,
            number: 1,
        }
    }

    /// The number of the next field.
    #[tactic(auto, unfolding(crate::specs::Fields::fields_left))]
    pub(crate) fn number(&self) -> u32
        ensures { result ≡ (fields_left self.now).number }
    {
        self.number
    }

    /// Whether no field is left.
    #[tactic(auto, using(crate::proofs::Cuts::none_left), unfolding(crate::specs::Fields::fields_left))]
    pub(crate) fn is_empty(&self) -> bool
        ensures { result ≡ is_empty (fields_left self.now).fields }
    {
        self.rest.is_none()
    }

    /// Takes the next field, if one is left. The number grows by 1 in either case, up to 4,294,967,295.
    #[tactic(auto, using(crate::proofs::Cuts::uncut), unfolding(crate::specs::Fields::fields_left))]
    pub(crate) fn next(&mut self) -> Option<&'a [u8]>
        ensures value { option_map (λ x. x.now) result ≡ slice_get (fields_left self.old).fields 0 }
        ensures after { fields_left self.new ≡ past (fields_left self.old) }
    {
        self.number = self.number.saturating_add(1);
        let text = self.rest?;
        match find(text, self.mark) {
            Some(end) => {
                self.rest = Some(&text[end + 1..]);
                Some(&text[..end])
            }
            None => {
                self.rest = None;
                Some(text)
            }
        }
    }
}
