// The header of a file judged, and one of its records by its number.
//
// Promises: any octets are answered; refusals 20 to 26 are tried in the paper's order (records specs/Records.antt), and what is given for a
// number is the paper's 27, or the record's type, place and length (records specs/Answers.antt).
#![tactic(auto)]

ghost use Rattle.std.specs.Prelude.{◌≡◌, ◌<◌, Ok};
ghost use Rattle.records.specs.Table.{fixed_types};
ghost use Rattle.records.specs.Records.{records, type_says, record_says, record_by_record, size_says, header_says, nth, place_of};
ghost use Rattle.records.specs.Reader.{read_record};
ghost use Rattle.records.specs.Answers.{record_said, record_gives};
ghost use Rattle.refusals.specs.Refusals.{verdict};

use records::{Primary, Record};
use refusals::Refusal;

// Refusals 24 and 25, for a record whose type was seen before or not.
fn judge_type(kind: u8, size: usize, seen: bool) -> Result<(), Refusal>
    ensures { result ≡ verdict (type_says fixed_types kind size seen) }
{
    let Some(n) = records::type_length(kind) else {
        return Ok(());
    };
    if size != n {
        return Err(Refusal::FIXED_LENGTH);
    }
    if seen {
        return Err(Refusal::TWICE);
    }
    Ok(())
}

fn judge_record(r: Record, end: usize, seen: bool) -> Result<(), Refusal>
    requires { r.place < end }
    ensures { result ≡ verdict (record_says fixed_types end seen r) }
{
    if records::is_cut(r, end) {
        return Err(Refusal::CUT);
    }
    judge_type(r.kind, r.length, seen)
}

// "23, 24, 25 are tried record by record".
fn judge_records(header: &[u8]) -> Result<(), Refusal>
    ensures { result ≡ verdict (record_by_record fixed_types header.now) }
{
    let mut seen = [false; 256];
    let mut at: usize = 0;
    while at < header.len() {
        let r = records::record_at(header, at);
        let kind = r.kind as usize;
        judge_record(r, header.len(), seen[kind])?;
        seen[kind] = true;
        at = records::next_place(r, header.len());
    }
    Ok(())
}

fn judge_size(lent: usize, end: u32, bits: u64) -> Result<(), Refusal>
    ensures { result ≡ verdict (size_says lent end bits) }
{
    let wanted = end as u64 + octets::rounded_up(bits);
    if lent as u64 != wanted {
        return Err(Refusal::DATA_LENGTH);
    }
    Ok(())
}

// Refusals 20 to 26.
pub fn judge(file: &[u8]) -> Result<(), Refusal>
    ensures { result ≡ verdict (header_says fixed_types file.now) }
{
    if file.len() < Primary::SIZE {
        return Err(Refusal::SHORT);
    }
    if file[0] != Primary::KIND {
        return Err(Refusal::NO_PRIMARY);
    }
    if octets::u16_at(file, 1) as usize != Primary::SIZE {
        return Err(Refusal::NO_PRIMARY);
    }
    let length = octets::u32_at(file, Primary::LENGTH_AT);
    let end = length as usize;
    if end < Primary::SIZE {
        return Err(Refusal::HEADER_LENGTH);
    }
    if end > file.len() {
        return Err(Refusal::HEADER_LENGTH);
    }
    judge_records(&file[0..end])?;
    judge_size(file.len(), length, octets::u64_at(file, Primary::BITS_AT))
}

// Record n of a header, from 0.
fn find_record(header: &[u8], n: usize) -> Result<Record, Refusal>
    ensures { result ≡ nth (records header.now) n }
{
    let mut left = n;
    let mut at: usize = 0;
    while at < header.len() {
        let r = records::record_at(header, at);
        if left == 0 {
            return Ok(r);
        }
        left -= 1;
        at = records::next_place(r, header.len());
    }
    Err(Refusal::NO_RECORD)
}

// Where the first record of a type stands, if there is one.
pub fn find_type(header: &[u8], kind: u8) -> Option<usize>
    ensures { result ≡ place_of kind (records header.now) }
{
    let mut at: usize = 0;
    while at < header.len() {
        let r = records::record_at(header, at);
        if r.kind == kind {
            return Some(r.place);
        }
        at = records::next_place(r, header.len());
    }
    None
}

// Record n of a file's header, from 0: its type, place and length, or refusal 20 to 27.
pub fn read_record(file: &[u8], n: usize) -> Result<Record, Refusal>
    ensures value { result ≡ read_record file.now n }
    ensures result_value { record_said result ≡ record_gives file.now n }
{
    judge(file)?;
    let end = octets::u32_at(file, Primary::LENGTH_AT) as usize;
    find_record(&file[0..end], n)
}
