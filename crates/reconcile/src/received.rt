// The lanes with the bytes of their files.
use crate::arguments::{Lane, Raw};
use crate::failure::Failure;
use std::{fs, io};
use thiserror::Error;

// What is wrong with the files of a lane.
#[derive(Debug, Drop, Error)]
enum FileError<'a> {
    #[error("cannot read {file}: {error}")]
    Unreadable { file: &'a str, error: io::Error },
    #[error("cut={cut} lies past the frame of {len} bytes")]
    Cut { cut: usize, len: usize },
}

#[derive(Drop)]
pub(crate) struct Received<'a> {
    pub(crate) lane: Lane<'a>,
    pub(crate) configuration: Vec<u8>,
    pub(crate) definition: Option<Vec<u8>>,
    pub(crate) frame: Option<RawFrame>,
}

// The bytes of a raw frame, and after how many of them a ring cuts it.
#[derive(Drop)]
pub(crate) struct RawFrame {
    pub(crate) bytes: Vec<u8>,
    pub(crate) cut: usize,
}

fn bytes_of<'a>(rt: &HostRuntime, file: &'a str) -> Result<Vec<u8>, FileError<'a>> {
    fs::read(rt, file).map_err(|error| FileError::Unreadable { file, error })
}

// A frame is at least as long as the part that its ring's end cuts off.
fn frame_of<'a>(rt: &HostRuntime, raw: Raw<'a>) -> Result<RawFrame, FileError<'a>> {
    let Raw { file, cut } = raw;
    let bytes = bytes_of(rt, file)?;
    let len = bytes.len();
    if cut > len {
        return Err(FileError::Cut { cut, len });
    }
    Ok(RawFrame { bytes, cut })
}

fn receive_one<'a>(rt: &HostRuntime, lane: Lane<'a>) -> Result<Received<'a>, FileError<'a>> {
    Ok(Received {
        lane,
        configuration: bytes_of(rt, lane.configuration)?,
        definition: lane.definition.map(|file| bytes_of(rt, file)).transpose()?,
        frame: lane.raw.map(|raw| frame_of(rt, raw)).transpose()?,
    })
}

pub(crate) fn receive<'a>(
    rt: &HostRuntime,
    lanes: &[Lane<'a>],
) -> Result<Vec<Received<'a>>, Failure> {
    let heap = rt.alloc();
    lanes
        .iter()
        .map(|lane| -> Result<Received, Failure> {
            receive_one(rt, *lane).map_err(|wrong| Failure::of_lane(heap, lane.number, &wrong))
        })
        .try_collect(heap)
}
