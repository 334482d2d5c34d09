// Labels by their names.
ghost use Rattle.std.specs.Prelude.{◌≡◌};
ghost use Rattle.std.specs.Str.{bytes_eq};
ghost use Rattle.assembler.specs.Placing.{name_in, label_named};

use crate::records::LabelRecord;

impl LabelRecord {
    // The name is the bytes of the text at the record's place, as far as the text goes.
    fn is_named(&self, text: &[u8], name: &[u8]) -> bool
        ensures { result ≡ bytes_eq (name_in text.now self.now) name.now }
    {
        let start = usize::from(self.place);
        let end = start + usize::from(self.length);
        &text[start.min(text.len())..end.min(text.len())] == name
    }
}

/// The first record of this name.
pub fn find_label(records: &[LabelRecord], text: &[u8], name: &[u8]) -> Option<LabelRecord>
    ensures { result ≡ label_named text.now name.now records.now }
{
    records
        .iter()
        .find(|record| record.is_named(text, name))
        .copied()
}
