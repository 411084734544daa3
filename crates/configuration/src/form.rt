// The form that a box has, by the number of its version.
ghost use Rattle.std.specs.Prelude.{◌≡◌, ok_or};
ghost use Rattle.configuration.specs.Forms.{form_of, form_number};

use choices::Reserved;

#[derive(Clone, Copy)]
pub(crate) enum Form {
    // Everything is listed.
    Long,
    // A word stands for the list.
    Short,
}

impl TryFrom<u8> for Form {
    type Error = Reserved;

    ghost try_from_gives = { λ number r. r ≡ ok_or (form_of number) (record { 0 = number }) };

    fn try_from(number: u8) -> Result<Form, Reserved> {
        match number {
            0 => Ok(Form::Long),
            1 => Ok(Form::Short),
            _ => Err(Reserved(number)),
        }
    }
}

impl From<Form> for u8 {
    ghost from_gives = { λ form number. number ≡ form_number form };

    fn from(form: Form) -> u8 {
        match form {
            Form::Long => 0,
            Form::Short => 1,
        }
    }
}
