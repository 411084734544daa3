// The statement of one lane.
use crate::arguments::{Frame, Lane};
use crate::failure::Failure;
use crate::layout::print_layout;
use crate::names::Component;
use crate::received::Received;
use crate::returned::{Written, configuration_returned, definition_returned};
use crate::ringed::same_through_ring;
use crate::shown::{Alignment, Escaped, Word};
use boxes::{Boxes, Configuration, Definition, Listing};
use fault::Fault;
use rules::check;
use std::io;

// The lane, its frame and its files. An empty line parts it from the lane before.
fn print_head(rt: &HostRuntime, lane: &Lane) -> io::Result<()> {
    let number = lane.number;
    if number > 1 {
        println!(rt; "")?;
    }
    let width = lane.frame.width;
    let height = lane.frame.height;
    let configuration = lane.configuration;
    print!(rt; "lane {number}: frame {width} x {height}, configuration {configuration}, ")?;
    match lane.definition {
        Some(definition) => println!(rt; "definition {definition}"),
        None => println!(rt; "no definition"),
    }
}

fn print_version(rt: &HostRuntime, configuration: &Configuration, profile: u32) -> io::Result<()> {
    let version = match configuration {
        Configuration::Listed(_) => 0u8,
        Configuration::Brief(_) => 1u8,
    };
    let profile = Word(profile);
    println!(rt; "  version {version}, profile {profile}")
}

fn print_entries(rt: &HostRuntime, boxes: &Boxes, listing: &Listing) -> io::Result<()> {
    println!(rt; "  entry  index  component        bits  format            alignment")?;
    for (i, entry) in listing.entries().iter().enumerate() {
        let index = entry.index;
        let component = Component(boxes.component_type(index));
        let bits = entry.depth();
        let format = entry.format;
        let alignment = Alignment(entry.align);
        println!(rt;
            "  {i:>5}  {index:>5}  {component:<15}  {bits:>4}  {format:<16}  {alignment}"
        )?;
    }
    Ok(())
}

fn print_uris(rt: &HostRuntime, definition: &Definition) -> io::Result<()> {
    let count = definition.components().len();
    for (i, uri) in (0..count).filter_map(|i| Some((i, definition.uri(i)?))) {
        let place = uri.place;
        let text = Escaped(uri.text);
        println!(rt; "  URI of component {i}, at byte {place}: \"{text}\"")?;
    }
    Ok(())
}

fn print_returned(
    rt: &HostRuntime,
    what: &str,
    returned: Result<Written, Fault>,
) -> io::Result<()> {
    match returned {
        Ok(Written::Same(size)) => println!(rt;
            "  {what} written back: {size} bytes, the same as were read"
        ),
        Ok(Written::Different(size)) => println!(rt;
            "  {what} written back: {size} bytes, NOT the same as were read"
        ),
        Ok(Written::Absent(size)) => println!(rt;
            "  {what}: none was read and none is written ({size} bytes, accepted)"
        ),
        Err(fault) => println!(rt; "  {what} not written back: {fault}"),
    }
}

fn print_boxes(rt: &HostRuntime, boxes: &Boxes) -> io::Result<()> {
    let listing = boxes.configuration.listing();
    print_version(rt, &boxes.configuration, listing.profile)?;
    print_entries(rt, boxes, &listing)?;
    print_layout(rt, &listing)?;
    if let Some(definition) = &boxes.definition {
        print_uris(rt, definition)?;
    }
    Ok(())
}

// The first rule that the configuration breaks for a frame of this size, or that it keeps all of them.
fn print_rules(rt: &HostRuntime, boxes: &Boxes, frame: Frame) -> io::Result<()> {
    match check(boxes, frame.width, frame.height) {
        Ok(()) => println!(rt; "  rules       all are kept"),
        Err(fault) => println!(rt; "  rules       {fault}"),
    }
}

// Whether the frame is the same bytes read straight and through a ring.
fn print_frame(rt: &HostRuntime, frame: &[u8], cut: usize) -> Result<(), Failure> {
    let len = frame.len();
    let outcome = if same_through_ring(rt.alloc(), frame, cut)? {
        "the same bytes"
    } else {
        "NOT the same bytes"
    };
    println!(rt;
        "  frame: {len} bytes, read straight and through a ring cut after {cut}: {outcome}"
    )?;
    Ok(())
}

pub(crate) fn print_lane(rt: &HostRuntime, received: &Received) -> Result<(), Failure> {
    print_head(rt, &received.lane)?;
    let configuration = received.configuration.as_slice();
    let definition = received.definition.as_deref();
    match Boxes::read(definition, configuration) {
        Ok(boxes) => {
            print_boxes(rt, &boxes)?;
            print_rules(rt, &boxes, received.lane.frame)?;
            let returned = configuration_returned(rt.alloc(), &boxes, configuration)?;
            print_returned(rt, "configuration", returned)?;
            let returned = definition_returned(rt.alloc(), &boxes, definition)?;
            print_returned(rt, "definition", returned)?;
        }
        Err(fault) => println!(rt; "  {fault}")?,
    }
    if let Some(frame) = &received.frame {
        print_frame(rt, frame.bytes.as_slice(), frame.cut)?;
    }
    Ok(())
}
