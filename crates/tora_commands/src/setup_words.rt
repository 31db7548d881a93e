//! The settings of a simulation as words of the command line.
ghost use Rattle.std.specs.Prelude.{◌≡◌, IfOk, option_map};
ghost use Rattle.std.specs.Result.{result_ok};
ghost use Rattle.tora_arq.specs.Settings.{IsTimes};
ghost use Rattle.tora_lines.specs.Words.{number_of};
ghost use Rattle.tora_script.specs.Parts.{no_parts, channel_by};
ghost use Rattle.tora_commands.specs.SetupWords.{asked_seed, channel_asked, asked_channel, asked_limits, asked_erasure};
ghost use Rattle.tora_commands.specs.SetupWords.{options_by, asked_options, asked_until, asked_by};

use crate::times_word::asked_times;
use tora_core::Erasure;
use tora_lines::words;
use tora_script::{Channel, Setup, WorldOptions, channel_parts, erasure_word};
use tora_world::Limits;

/// The words after the options of `tora sim`; `None` for an option that is not given.
#[derive(Clone, Copy)]
pub struct SetupWords<'a> {
    pub times: Option<&'a str>,
    pub channel: Option<&'a str>,
    pub seed: Option<&'a str>,
    /// Whether `--notice` is given.
    pub has_notice: bool,
    /// Whether `--large` is given.
    pub is_large: bool,
    /// The number of rounds after which the simulation stops.
    pub until: Option<&'a str>,
    /// The choice of erasure of the nodes.
    pub erasure: Option<&'a str>,
    /// The path of the channel file.
    pub channel_file: Option<&'a str>,
}

/// Why words are not the settings of a simulation.
#[derive(Clone, Copy)]
pub enum SetupFault<'a> {
    /// The word after `--times` is not four numbers from 1 to 2^64 - 1, separated by commas.
    Times,
    /// The word after `--seed` is not a number below 2^64.
    Seed,
    /// There is a seed, but no channel and no channel file.
    SeedAlone,
    /// The word after `--until` is not a number below 2^64.
    Until,
    /// The word after `--erasure` is neither `plain` nor `remembered`.
    Erasure,
    /// This text, among the parts after `--channel`, is not a part of a channel, or repeats one.
    Part(&'a [u8]),
}

impl SetupFault<'_> {
    /// The message about the fault.
    pub fn cause(&self) -> &'static str {
        match self {
            SetupFault::Times => {
                "`--times` takes four numbers, each at least 1, separated by commas, as in 10,50,5,8"
            }
            SetupFault::Seed => "`--seed` takes a number below 2^64",
            SetupFault::SeedAlone => "`--seed` needs a `--channel` or a `--channel-file`",
            SetupFault::Until => "`--until` takes a number of rounds below 2^64",
            SetupFault::Erasure => "`--erasure` takes `plain` or `remembered`",
            SetupFault::Part(_) => {
                "not a part of a channel: the parts are loss=SHARE and repeat=SHARE, from 0 to 1 \
                 with up to six digits after the point, and delay=ROUNDS or delay=LEAST-MOST, up \
                 to 10000, each at most once"
            }
        }
    }
}

/// The seed in a word; 0 without a word, `None` if the word is not a number below 2^64.
fn seed(word: Option<&str>) -> Option<u64>
    ensures { result ≡ asked_seed (option_map (λ w. w.now) word.entry) }
{
    match word {
        None => Some(0),
        Some(word) => words::number(word.as_bytes()),
    }
}

/// The channel in a word, with the seed in another, or the seed 0. The error is `Seed` for a bad seed, otherwise `Part`
/// for a bad part of the channel.
#[tactic(auto, unfolding(crate::specs::SetupWords::channel_asked))]
fn channel_of<'a>(channel: &'a str, seeded: Option<&str>) -> Result<Channel, SetupFault<'a>>
    ensures { result_ok result ≡ channel_asked channel.now (option_map (λ w. w.now) seeded.entry) }
{
    let Some(seed) = seed(seeded) else {
        return Err(SetupFault::Seed);
    };
    match channel_parts(channel.as_bytes()) {
        Ok(parts) => Ok(parts.channel(seed)),
        Err(part) => Err(SetupFault::Part(part)),
    }
}

/// The clear channel with the seed in a word, for the lines of a channel file. `Seed` if the word is no seed.
fn seeded<'a>(seed: &str) -> Result<Channel, SetupFault<'a>>
    ensures { result_ok result ≡ option_map (channel_by no_parts) (number_of seed.now) }
{
    match words::number(seed.as_bytes()) {
        Some(seed) => Ok(Channel {
            seed,
            ..Channel::CLEAR
        }),
        None => Err(SetupFault::Seed),
    }
}

/// The channel that the words of `--channel` and `--seed` give; the clear channel without these words. `SeedAlone` if
/// there is a seed but neither a channel nor a channel file; otherwise the errors of `channel_of`.
fn channel<'a>(
    channel: Option<&'a str>,
    seed: Option<&str>,
    has_file: bool,
) -> Result<Channel, SetupFault<'a>>
    ensures { result_ok result ≡ asked_channel (option_map (λ w. w.now) channel.entry)
        (option_map (λ w. w.now) seed.entry) has_file }
{
    match (channel, seed) {
        (None, None) => Ok(Channel::CLEAR),
        (None, Some(seed)) if has_file => seeded(seed),
        (None, Some(_)) => Err(SetupFault::SeedAlone),
        (Some(channel), seed) => channel_of(channel, seed),
    }
}

/// The limits of a world: the greatest with `--large`, otherwise the standard ones.
fn limits(is_large: bool) -> Limits
    ensures { result ≡ asked_limits is_large }
{
    if is_large {
        Limits::GREATEST
    } else {
        Limits::STANDARD
    }
}

/// The choice of erasure that a word names; `Plain` if there is no word. `None` if the word names no choice.
pub(crate) fn asked_erasure(word: Option<&str>) -> Option<Erasure>
    ensures { result ≡ asked_erasure (option_map (λ w. w.now) word.entry) }
{
    match word {
        None => Some(Erasure::Plain),
        Some(word) => erasure_word(word.as_bytes()),
    }
}

/// The options of a world.
fn options(is_large: bool, erasure: Erasure) -> WorldOptions
    ensures { result ≡ options_by is_large erasure }
{
    WorldOptions {
        limits: limits(is_large),
        erasure,
    }
}

/// The options of a world that the words ask for; `None` if the word for erasure names no choice.
pub(crate) fn asked_options(is_large: bool, erasure: Option<&str>) -> Option<WorldOptions>
    ensures { result ≡ asked_options is_large (option_map (λ w. w.now) erasure.entry) }
{
    let erasure = asked_erasure(erasure)?;
    Some(options(is_large, erasure))
}

/// The number of rounds in a word; `None` without a word. `Until` if the word is not a number below 2^64.
fn until<'a>(word: Option<&str>) -> Result<Option<u64>, SetupFault<'a>>
    ensures { result_ok result ≡ asked_until (option_map (λ w. w.now) word.entry) }
{
    match word {
        None => Ok(None),
        Some(word) => match words::number(word.as_bytes()) {
            Some(rounds) => Ok(Some(rounds)),
            None => Err(SetupFault::Until),
        },
    }
}

/// The setup in the words, or the first fault: of the times, then of the seed and the channel, then of the last round,
/// then of the erasure.
#[tactic(auto, unfolding(crate::specs::SetupWords::asked_setup))]
pub fn asked_setup<'a>(words: SetupWords<'a>) -> Result<Setup, SetupFault<'a>>
    ensures value { result_ok result ≡ asked_by words.entry }
    ensures times { IfOk result (λ s. IsTimes s.times) }
{
    let Some(times) = asked_times(words.times) else {
        return Err(SetupFault::Times);
    };
    let channel = channel(words.channel, words.seed, words.channel_file.is_some())?;
    let until = until(words.until)?;
    let Some(erasure) = asked_erasure(words.erasure) else {
        return Err(SetupFault::Erasure);
    };
    Ok(Setup {
        times,
        channel,
        has_notice: words.has_notice,
        options: options(words.is_large, erasure),
        until,
    })
}
