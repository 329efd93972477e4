// What was wanted in a line, in the words of docs/PROGRAMS.md.
use crate::Wanted;
use std::fmt;

impl fmt::Display for Wanted {
    fn fmt<W: fmt::Write>(&self, f: &mut fmt::Formatter<W>) -> fmt::Result {
        match self {
            Wanted::Fact => write!(
                f,
                "frame, spacecraft, source, destination, insert, check, channel or lane"
            ),
            Wanted::Length => write!(f, "the word length"),
            Wanted::Service => write!(f, "the word service"),
            Wanted::Count => write!(f, "the word count"),
            Wanted::Ocf => write!(f, "the word ocf"),
            Wanted::Channel => write!(f, "the word channel"),
            Wanted::Map => write!(f, "the word map"),
            Wanted::Carries => write!(f, "the word packets or access"),
            Wanted::Longest => write!(f, "the word longest"),
            Wanted::Number(low, high) => write!(f, "a number from {low} to {high}"),
            Wanted::YesOrNo => write!(f, "yes or no"),
            Wanted::End => write!(f, "the line's end"),
            Wanted::NewFact => write!(f, "a fact that was not said before"),
            Wanted::NewChannel => write!(
                f,
                "a virtual channel and service that were not listed before"
            ),
            Wanted::SameOcf => write!(f, "the ocf of the other channel of this virtual channel"),
            Wanted::ListedChannel => write!(f, "a channel that was listed before"),
            Wanted::NewMap => write!(f, "a map that has no lane of this channel yet"),
            Wanted::FewerChannels => write!(f, "at most 8 channels"),
            Wanted::FewerLanes => write!(f, "at most 8 lanes"),
        }
    }
}
