// The configuration box, `uncC`.
ghost use Rattle.std.specs.Prelude.{◌≡◌, ◌<◌, ◌≤◌, length, Err};
ghost use Rattle.fault.specs.declared.layer.Layer.TheVariants.{ConfigurationBox};
ghost use Rattle.configuration.specs.Configurations.{read_configuration, opening_of, brief_of, listed_by, listing_for};
ghost use Rattle.configuration.specs.Encoded.{configuration_body, configuration_bytes};
ghost use Rattle.configuration.specs.RoundTrip.{ConfigurationExact, ConfigurationBack};
ghost use Rattle.fields.specs.Put.{placed, write_answer, written_to};

use crate::form::Form;
use crate::listing::Listing;
use crate::profile::Profile;
use fault::{Fault, Layer, Reason};
use fields::{Reader, Whole, put, put_header, put_word};

pub(crate) const UNCC: u32 = 0x756e_6343;

#[derive(Clone, Copy, Debug, PartialEq, Eq)]
pub enum Configuration {
    // Version 0: everything is listed.
    Listed(Listing),
    // Version 1: a word stands for the list.
    Brief(Profile),
}

// What stands before the list: `left` bytes of the box follow it.
#[derive(Clone, Copy)]
struct Opening {
    form: Form,
    profile: u32,
    left: usize,
}

// Why an opening is refused that does not end within the box: the one slice pattern below has no part of it to test.
fn cut_short(bytes: &[u8]) -> Fault
    requires { length bytes.now < 16 }
    ensures { opening_of bytes.now ≡ Err result }
{
    if bytes.len() < 9 {
        return Layer::ConfigurationBox.refuses(Reason::Extent, 8);
    }
    if Form::try_from(bytes[8]).is_err() {
        return Layer::ConfigurationBox.refuses(Reason::Version, 8);
    }
    if bytes.len() < 12 {
        return Layer::ConfigurationBox.refuses(Reason::Extent, 9);
    }
    if u32::from_be_bytes([0, bytes[9], bytes[10], bytes[11]]) != 0 {
        return Layer::ConfigurationBox.refuses(Reason::Version, 9);
    }
    Layer::ConfigurationBox.refuses(Reason::Extent, 12)
}

// Version, flags and profile, and how much of the box is left after them.
fn opening_of(bytes: &[u8]) -> Result<Opening, Fault>
    ensures { result ≡ opening_of bytes.now }
{
    let [
        _,
        _,
        _,
        _,
        _,
        _,
        _,
        _,
        version,
        f0,
        f1,
        f2,
        p0,
        p1,
        p2,
        p3,
        rest @ ..,
    ] = bytes
    else {
        return Err(cut_short(bytes));
    };
    let Ok(form) = Form::try_from(*version) else {
        return Err(Layer::ConfigurationBox.refuses(Reason::Version, 8));
    };
    if u32::from_be_bytes([0, *f0, *f1, *f2]) != 0 {
        return Err(Layer::ConfigurationBox.refuses(Reason::Version, 9));
    }
    let profile = u32::from_be_bytes([*p0, *p1, *p2, *p3]);
    Ok(Opening {
        form,
        profile,
        left: rest.len(),
    })
}

// A version 1 box ends after its profile.
fn brief(profile: u32, left: usize) -> Result<Configuration, Fault>
    ensures { result ≡ brief_of profile left }
{
    let Ok(word) = Profile::try_from(profile) else {
        return Err(Layer::ConfigurationBox.refuses(Reason::Reserved, 12));
    };
    if left > 0 {
        return Err(Layer::ConfigurationBox.refuses(Reason::Extent, 16));
    }
    Ok(Configuration::Brief(word))
}

fn listed(whole: Whole, profile: u32) -> Result<Configuration, Fault>
    ensures { result ≡ listed_by profile whole.entry.reader.layer whole.entry.reader.bytes.now }
{
    Listing::read(whole, profile).map(Configuration::Listed)
}

// Writes what the box holds after its type word.
fn put_body(out: &mut [u8], configuration: &Configuration)
    requires { length (configuration_bytes configuration.now) ≤ length out.old }
    ensures { out.new ≡ placed out.old 8 (configuration_body configuration.now) }
{
    match configuration {
        Configuration::Listed(listing) => listing.put(out),
        Configuration::Brief(profile) => {
            put(out, 8, &[u8::from(Form::Short), 0, 0, 0]);
            put_word(out, 12, u32::from(*profile));
        }
    }
}

fn read_configuration(bytes: &[u8]) -> Result<Configuration, Fault>
    ensures { result ≡ read_configuration bytes.now }
{
    let reader = Reader {
        bytes,
        layer: Layer::ConfigurationBox,
    };
    let whole = Whole::new(reader, UNCC)?;
    let opening = opening_of(bytes)?;
    match opening.form {
        Form::Long => listed(whole, opening.profile),
        Form::Short => brief(opening.profile, opening.left),
    }
}

impl Configuration {
    pub fn read(bytes: &[u8]) -> Result<Configuration, Fault>
        ensures value { result ≡ read_configuration bytes.now }
        ensures exact { ConfigurationExact bytes.now result }
    {
        read_configuration(bytes)
    }

    // The list, or the one that the word stands for.
    pub fn listing(&self) -> Listing
        ensures { result ≡ listing_for self.now }
    {
        match *self {
            Configuration::Listed(listing) => listing,
            Configuration::Brief(profile) => profile.listing(),
        }
    }

    // The bytes that the box takes.
    pub fn size(&self) -> usize
        ensures { result ≡ length (configuration_bytes self.now) }
    {
        match self {
            Configuration::Listed(listing) => listing.size(),
            Configuration::Brief(_) => 16,
        }
    }

    // Writes the box to the front of a buffer, and answers how many bytes it took.
    pub fn write(&self, out: &mut [u8]) -> Result<usize, Fault>
        ensures answer { result ≡ write_answer ConfigurationBox (configuration_bytes self.now) out.old }
        ensures bytes { out.new ≡ written_to (configuration_bytes self.now) out.old }
        ensures back { ConfigurationBack self.now }
    {
        let size = self.size();
        if out.len() < size {
            return Err(Layer::ConfigurationBox.refuses(Reason::Room, 0));
        }
        put_header(out, size as u64, UNCC);
        put_body(out, self);
        Ok(size)
    }
}
