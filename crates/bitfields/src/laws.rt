// The laws that reading and writing values rest on. Each function is there for what it ensures.
ghost use Rattle.bitfields.specs.Field.{FieldLaws};
ghost use Rattle.bitfields.specs.Plans.{PlansKeep};
ghost use Rattle.bitfields.specs.Reading.{ReadingLaws};
ghost use Rattle.bitfields.specs.Writing.{WritingLaws};

// What was put in a field is spelled there, and no other bit changes.
fn fields_kept() -> u8
    ensures { FieldLaws }
{
    0
}

// A field that lies in a word is read by dividing the number of the word's bytes.
fn words_read() -> u8
    ensures { ReadingLaws }
{
    0
}

// A field that lies in a word is written by replacing the word's bytes.
fn words_written() -> u8
    ensures { WritingLaws }
{
    0
}

// What was put at a place of a plan is spelled there, and nothing else changes.
fn places_kept() -> u8
    ensures { PlansKeep }
{
    0
}
