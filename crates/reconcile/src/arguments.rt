// The lanes that the words of the call name.
ghost use Rattle.std.specs.Prelude.{◌≤◌, map, length, IfOk, string_bytes};
ghost use Rattle.reconcile.specs.Lanes.{Named};

use crate::failure::Failure;
use std::alloc::Global;
use thiserror::Error;

// Stands between the words of two lanes.
const SEPARATOR: &str = "--";

// How the words of a raw frame begin.
const FRAME: &str = "frame=";

const CUT: &str = "cut=";

// What is wrong with the words of a lane.
#[derive(Debug, Drop, Error)]
enum WordError<'a> {
    #[error("expected WIDTH HEIGHT CONFIGURATION [DEFINITION] [frame=FILE [cut=N]], and -- between two lanes")]
    Usage,
    #[error("the width '{0}' is not a number from 0 to 4294967295")]
    Width(&'a str),
    #[error("the height '{0}' is not a number from 0 to 4294967295")]
    Height(&'a str),
    #[error("'{0}' comes without a frame=FILE before it")]
    NoFrame(&'a str),
    #[error("the cut '{0}' is not a number of bytes")]
    Cut(&'a str),
}

#[derive(Clone, Copy)]
pub(crate) struct Frame {
    pub(crate) width: u32,
    pub(crate) height: u32,
}

// The file of a raw frame, and after how many bytes a ring cuts it.
#[derive(Clone, Copy)]
pub(crate) struct Raw<'a> {
    pub(crate) file: &'a str,
    pub(crate) cut: usize,
}

// One lane as the caller names it: the size of its frame, the files of its boxes, and its frame where there is one.
#[derive(Clone, Copy)]
pub(crate) struct Lane<'a> {
    pub(crate) number: usize,
    pub(crate) frame: Frame,
    pub(crate) configuration: &'a str,
    pub(crate) definition: Option<&'a str>,
    pub(crate) raw: Option<Raw<'a>>,
}

fn frame_of<'a>(width: &'a str, height: &'a str) -> Result<Frame, WordError<'a>> {
    Ok(Frame {
        width: width.parse().map_err(|_| WordError::Width(width))?,
        height: height.parse().map_err(|_| WordError::Height(height))?,
    })
}

fn file_of(word: &str) -> Result<&str, WordError<'_>> {
    word.strip_prefix(FRAME).ok_or(WordError::NoFrame(word))
}

fn cut_of(word: &str) -> Result<usize, WordError<'_>> {
    let text = word.strip_prefix(CUT).ok_or(WordError::Usage)?;
    text.parse().map_err(|_| WordError::Cut(text))
}

fn raw_of(words: &[String]) -> Result<Option<Raw<'_>>, WordError<'_>> {
    let (file, cut) = match words {
        [] => return Ok(None),
        [frame] => (file_of(frame)?, 0),
        [frame, cut] => (file_of(frame)?, cut_of(cut)?),
        _ => return Err(WordError::Usage),
    };
    Ok(Some(Raw { file, cut }))
}

// How many words there are before those of the raw frame.
fn words_of_boxes(words: &[String]) -> usize
    ensures { result ≤ length words.now }
{
    words
        .iter()
        .position(|word| word.as_str().starts_with(FRAME) || word.as_str().starts_with(CUT))
        .unwrap_or(words.len())
}

// The lane without its raw frame.
fn lane_of<'a>(number: usize, words: &'a [String]) -> Result<Lane<'a>, WordError<'a>>
    ensures { IfOk result (Named number (map string_bytes words.now)) }
{
    let (width, height, configuration, definition) = match words {
        [width, height, configuration] => (width, height, configuration, None),
        [width, height, configuration, definition] => {
            (width, height, configuration, Some(definition.as_str()))
        }
        _ => return Err(WordError::Usage),
    };
    Ok(Lane {
        number,
        frame: frame_of(width, height)?,
        configuration,
        definition,
        raw: None,
    })
}

fn whole_lane_of<'a>(number: usize, words: &'a [String]) -> Result<Lane<'a>, WordError<'a>> {
    let (boxes, frame) = words.split_at(words_of_boxes(words));
    let lane = lane_of(number, boxes)?;
    let raw = raw_of(frame)?;
    Ok(Lane { raw, ..lane })
}

pub(crate) fn lanes_of<'a>(heap: Global, words: &'a [String]) -> Result<Vec<Lane<'a>>, Failure> {
    words
        .split(|word| word.as_str() == SEPARATOR)
        .zip(1..)
        .map(|(words, number)| -> Result<Lane, Failure> {
            whole_lane_of(number, words).map_err(|wrong| Failure::of_lane(heap, number, &wrong))
        })
        .try_collect(heap)
}
