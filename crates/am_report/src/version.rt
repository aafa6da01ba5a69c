//! The two versions of a report, and of the other texts that say what layouts are won.
ghost use Rattle.std.specs.Prelude.{◌≡◌, ◌++◌, OnOk};
ghost use Rattle.am_report.specs.Versions.{most_written, version_number, version_of};
ghost use Rattle.am_report.specs.Versions.{weigh_alike, weight_text, weight_word};

use byte_text::Text;
use layout_list::MOST_LISTED;
use std::alloc::{AllocError, Global};
use win_vectors::{MAX_WEIGHT, Weights};

/// What the numbers of a text say of the layouts that are won.
#[derive(Clone, Copy, Debug, PartialEq, Eq)]
pub enum Version {
    /// Version 1: how many they are. Each layout weighs 1.
    Counts,
    /// Version 2: what they weigh together.
    Weights,
}

impl Version {
    /// The version of a text about layouts with these weights.
    pub(crate) fn of(weights: &Weights) -> Version
        ensures { result ≡ version_of weights.now }
    {
        if weigh_alike(weights) {
            Version::Counts
        } else {
            Version::Weights
        }
    }

    // The version's number.
    pub(crate) fn number(self) -> &'static [u8]
        ensures { result.now ≡ version_number self }
    {
        match self {
            Version::Counts => b"1",
            Version::Weights => b"2",
        }
    }

    // The word before a number of layouts, or before their weight.
    pub(crate) fn word(self) -> &'static [u8]
        ensures { result.now ≡ weight_word self }
    {
        match self {
            Version::Counts => b" count ",
            Version::Weights => b" weight ",
        }
    }

    // The greatest number that may follow the word.
    pub(crate) fn most_written(self) -> u32
        ensures { result ≡ most_written self }
    {
        match self {
            Version::Counts => MOST_LISTED as u32,
            Version::Weights => MOST_LISTED as u32 * MAX_WEIGHT,
        }
    }
}

// Whether each layout weighs 1.
fn weigh_alike(weights: &Weights) -> bool
    ensures { result ≡ weigh_alike weights.now }
{
    for place in 0..weights.width() {
        if weights.get(place) != 1 {
            return false;
        }
    }
    true
}

// Appends the word and a weight.
pub(crate) fn push_weight(
    text: &mut Text,
    alloc: Global,
    version: Version,
    weight: u32,
) -> Result<(), AllocError>
    ensures { OnOk result (text.new ≡ text.old ++ weight_text version weight) }
{
    text.push(version.word())?;
    text.push_number(alloc, u64::from(weight))
}
