// Refusals as text, with their numbers and the layer's letter.
use fault::{Layer, Reason};
use std::test::Fail;

const TEXTS: [(Reason, &'static str); 3] = [
    (
        Reason::Code,
        "refusal 22, layer f, place 0: the code is not below 2 to the depth",
    ),
    (
        Reason::Kind,
        "refusal 23, layer f, place 0: the kind of value does not take this component",
    ),
    (
        Reason::NotANumber,
        "refusal 28, layer f, place 0: not a number",
    ),
];

#[test]
fn as_text(rt: HostRuntime) -> Result<(), Fail> {
    for (reason, expected) in TEXTS {
        let fault = Layer::Frame.refuses(reason, 0);
        let text = format!(in rt.alloc(); "{fault}")?;
        assert_eq!(rt; text.as_str(), expected);
    }
    Ok(())
}
