use law::order::Answer;
use plant::show::Shown;
use previews::preview::Preview;
use std::fmt;

/// A preview as people read it.
#[derive(Clone, Copy)]
pub(crate) struct Foretold(pub(crate) Preview);

impl fmt::Display for Foretold {
    fn fmt<W: fmt::Write>(&self, f: &mut fmt::Formatter<W>) -> fmt::Result {
        let Preview {
            set,
            effect,
            difference,
        } = self.0;
        let people = Shown { set };
        let effect = effect.number();
        write!(
            f,
            "would have {people}: effect {effect}, difference {difference}"
        )
    }
}

/// An answer as people read it.
#[derive(Clone, Copy)]
pub(crate) struct Told(pub(crate) Answer);

impl fmt::Display for Told {
    fn fmt<W: fmt::Write>(&self, f: &mut fmt::Formatter<W>) -> fmt::Result {
        match self.0 {
            Answer::NoCall => f.write_str("no call"),
            Answer::Refused(refusal) => write!(f, "refused {refusal}"),
            Answer::Opened => f.write_str("opened"),
            Answer::Stepped => f.write_str("step taken"),
            Answer::Cleared => f.write_str("cleared"),
            Answer::Reopened => f.write_str("reopened"),
            Answer::Released => f.write_str("released"),
            Answer::Withdrawn => f.write_str("withdrawn"),
            Answer::Set(set) => {
                let people = Shown { set };
                write!(f, "slot 0 has {people}")
            }
            Answer::May(may) => write!(f, "actor 2 may: {may}"),
            Answer::Preview(preview) => {
                let told = Foretold(preview);
                write!(f, "slot 0 {told}")
            }
        }
    }
}
