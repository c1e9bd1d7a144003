// The fixed fields of a file's header, where nothing of it is refused: what stands in the primary record, and in the records of types 1, 2, 5
// and 128, or their absence.
//
// Promises: any octets are answered; the answer is an equation over the header's octets (records specs/Reader.antt), and says the paper's
// number and values (records specs/Answers.antt).
#![tactic(auto)]

ghost use Rattle.std.specs.Prelude.{◌≡◌, ◌+◌, ◌≤◌, length};
ghost use Rattle.records.specs.Table.{fixed_types};
ghost use Rattle.records.specs.Reader.{Fine, StandsWhole, primary_of, image_at, navigation_at, name_at, time_at, segment_at, image_if, navigation_if, time_if, segment_if, fields_of, read_header};
ghost use Rattle.records.specs.Answers.{header_said, header_gives};

use records::{Header, Image, Navigation, Primary, Record, Segment, Time};
use refusals::Refusal;

fn primary_fields(header: &[u8]) -> Primary
    requires { 16 ≤ length header.now }
    ensures { result ≡ primary_of header.now }
{
    Primary {
        filetype: header[3],
        length: octets::u32_at(header, Primary::LENGTH_AT),
        bits: octets::u64_at(header, Primary::BITS_AT),
    }
}

fn image_at(header: &[u8], p: usize) -> Image
    requires { p + 9 ≤ length header.now }
    ensures { result ≡ image_at header.now p }
{
    Image {
        bits: header[p + 3],
        columns: octets::u16_at(header, p + 4),
        lines: octets::u16_at(header, p + 6),
        compression: header[p + 8],
    }
}

fn name_at(header: &[u8], p: usize) -> [u8; Navigation::NAME]
    requires { p + 51 ≤ length header.now }
    ensures { result ≡ name_at header.now p }
{
    let mut name = [0u8; Navigation::NAME];
    let from = p + Record::LEAST;
    let to = from + Navigation::NAME;
    octets::copy(&header[from..to], &mut name, 0);
    name
}

fn navigation_at(header: &[u8], p: usize) -> Navigation
    requires { p + 51 ≤ length header.now }
    ensures { result ≡ navigation_at header.now p }
{
    Navigation {
        name: name_at(header, p),
        cfac: octets::i32_at(header, p + 35),
        lfac: octets::i32_at(header, p + 39),
        coff: octets::i32_at(header, p + 43),
        loff: octets::i32_at(header, p + 47),
    }
}

fn time_at(header: &[u8], p: usize) -> Time
    requires { p + 10 ≤ length header.now }
    ensures { result ≡ time_at header.now p }
{
    Time {
        pfield: header[p + 3],
        days: octets::u16_at(header, p + 4),
        milliseconds: octets::u32_at(header, p + 6),
    }
}

fn segment_at(header: &[u8], p: usize) -> Segment
    requires { p + 7 ≤ length header.now }
    ensures { result ≡ segment_at header.now p }
{
    Segment {
        number: header[p + 3],
        total: header[p + 4],
        line: octets::u16_at(header, p + 5),
    }
}

// The fields of each fixed type: of the record at its place, or its absence. Whoever found the place knows that the record stands whole.
fn image_fields(header: &[u8], place: Option<usize>) -> Option<Image>
    requires { StandsWhole 9 header.now place }
    ensures { result ≡ image_if header.now place }
{
    place.map(|p| image_at(header, p))
}

fn navigation_fields(header: &[u8], place: Option<usize>) -> Option<Navigation>
    requires { StandsWhole 51 header.now place }
    ensures { result ≡ navigation_if header.now place }
{
    place.map(|p| navigation_at(header, p))
}

fn time_fields(header: &[u8], place: Option<usize>) -> Option<Time>
    requires { StandsWhole 10 header.now place }
    ensures { result ≡ time_if header.now place }
{
    place.map(|p| time_at(header, p))
}

fn segment_fields(header: &[u8], place: Option<usize>) -> Option<Segment>
    requires { StandsWhole 7 header.now place }
    ensures { result ≡ segment_if header.now place }
{
    place.map(|p| segment_at(header, p))
}

// The fixed fields of a header that nothing is to be refused of.
fn fields(header: &[u8]) -> Header
    requires { Fine fixed_types header.now }
    ensures { result ≡ fields_of header.now }
{
    Header {
        primary: primary_fields(header),
        image: image_fields(header, header::find_type(header, Image::KIND)),
        navigation: navigation_fields(header, header::find_type(header, Navigation::KIND)),
        time: time_fields(header, header::find_type(header, Time::KIND)),
        segment: segment_fields(header, header::find_type(header, Segment::KIND)),
    }
}

// The fixed fields of a file's header, or refusal 20 to 26.
pub fn read_header(file: &[u8]) -> Result<Header, Refusal>
    ensures value { result ≡ read_header file.now }
    ensures result_value { header_said result ≡ header_gives file.now }
{
    header::judge(file)?;
    let end = octets::u32_at(file, Primary::LENGTH_AT) as usize;
    Ok(fields(&file[0..end]))
}
