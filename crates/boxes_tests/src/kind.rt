// Which of the two boxes is read, and how it refuses.
use crate::case::{Case, Whole};
use boxes::{Configuration, Definition};
use fault::{Fault, Layer, Reason};
use std::alloc::AllocError;
use std::fmt::Display;
use std::process::Abort;

#[derive(Clone, Copy)]
pub(crate) enum Kind {
    Definition,
    Configuration,
}

impl Kind {
    fn layer(self) -> Layer {
        match self {
            Kind::Definition => Layer::DefinitionBox,
            Kind::Configuration => Layer::ConfigurationBox,
        }
    }

    // How the box is refused, if it is.
    fn refused(self, bytes: &[u8]) -> Option<Fault> {
        match self {
            Kind::Definition => Definition::read(bytes).err(),
            Kind::Configuration => Configuration::read(bytes).err(),
        }
    }

    // What is tried is what a failure shows.
    pub(crate) fn accepts(self, rt: &impl Abort, bytes: &[u8], tried: &impl Display) {
        assert_eq!(rt; self.refused(bytes), None, "{tried}");
    }

    pub(crate) fn refuses(
        self,
        rt: &impl Abort,
        bytes: &[u8],
        reason: Reason,
        place: u64,
        tried: &impl Display,
    ) {
        let expected = self.layer().refuses(reason, place);
        assert_eq!(rt; self.refused(bytes), Some(expected), "{tried}");
    }

    // The box is valid, and each of the cases spoils it.
    pub(crate) fn refuses_all(
        self,
        rt: &(impl Abort + AllocGlobal),
        whole: &[u8],
        cases: &[Case],
    ) -> Result<(), AllocError> {
        self.accepts(rt, whole, &"whole");
        for (i, case) in cases.iter().enumerate() {
            let draft = case.spoil(rt.alloc(), whole)?;
            let Case(_, _, reason, place) = *case;
            self.refuses(rt, draft.bytes(), reason, place, &format_args!("case {i}"));
        }
        Ok(())
    }

    // The box is valid, and cut to any length it lacks the field that does not fit.
    pub(crate) fn refuses_cuts(
        self,
        rt: &(impl Abort + AllocGlobal),
        whole: &Whole,
    ) -> Result<(), AllocError> {
        self.accepts(rt, whole.bytes, &"whole");
        for len in 0..whole.bytes.len() {
            let draft = whole.cut(rt.alloc(), len)?;
            let place = whole.field_cut(len);
            let tried = format_args!("cut to {len}");
            self.refuses(rt, draft.bytes(), Reason::Extent, place, &tried);
        }
        Ok(())
    }
}
