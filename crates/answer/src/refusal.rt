// The refusals, a variant for each number of document 01's table and of document 02's requests, with the detail that the table names.
ghost use Rattle.std.specs.Prelude.{◌≡◌};
ghost use Rattle.answer.specs.Answer.{refusal_number, refusal_detail};

use std::error::Error;
use std::fmt;

#[derive(Clone, Copy, Debug, PartialEq, Eq)]
pub enum Refusal {
    LogTooLong(usize), // its length
    ByteAbove1(usize), // the lowest such index in the log
    TooFewBytes(usize), // the place
    StartPair(usize), // the place
    WordBroken(usize), // the first such word, 1 to 10
    Preamble,
    Ending(usize), // the first such word, 2 or 10
    SubframeNumber(usize), // the number
    Count(usize), // the count
    NoBlock(usize), // the place
    NotWritable,
    BlockBuffer(usize), // its length
    Satellite(usize), // the number
    GpsSecond,
    DayNumber(usize), // DN
    WeekDifference,
    SubframeNotHeld(usize), // the lowest that is missing
    Issue,
    Health(usize), // the health
    PageNotHeld,
    RankingBuffer,
}

impl Refusal {
    // Its number in the table.
    pub fn number(self) -> u8
        ensures { result ≡ refusal_number self }
    {
        match self {
            Refusal::LogTooLong(_) => 1,
            Refusal::ByteAbove1(_) => 2,
            Refusal::TooFewBytes(_) => 3,
            Refusal::StartPair(_) => 4,
            Refusal::WordBroken(_) => 5,
            Refusal::Preamble => 6,
            Refusal::Ending(_) => 7,
            Refusal::SubframeNumber(_) => 8,
            Refusal::Count(_) => 9,
            Refusal::NoBlock(_) => 10,
            Refusal::NotWritable => 11,
            Refusal::BlockBuffer(_) => 12,
            Refusal::Satellite(_) => 13,
            Refusal::GpsSecond => 14,
            Refusal::DayNumber(_) => 15,
            Refusal::WeekDifference => 16,
            Refusal::SubframeNotHeld(_) => 17,
            Refusal::Issue => 18,
            Refusal::Health(_) => 19,
            Refusal::PageNotHeld => 20,
            Refusal::RankingBuffer => 21,
        }
    }

    // Its detail, 0 where the table names none.
    pub fn detail(self) -> usize
        ensures { result ≡ refusal_detail self }
    {
        match self {
            Refusal::LogTooLong(length) | Refusal::BlockBuffer(length) => length,
            Refusal::ByteAbove1(index) => index,
            Refusal::TooFewBytes(p) | Refusal::StartPair(p) | Refusal::NoBlock(p) => p,
            Refusal::WordBroken(k) | Refusal::Ending(k) => k,
            Refusal::SubframeNumber(n) | Refusal::SubframeNotHeld(n) => n,
            Refusal::Count(count) => count,
            Refusal::Satellite(n) => n,
            Refusal::DayNumber(dn) => dn,
            Refusal::Health(health) => health,
            _ => 0,
        }
    }
}

// Its condition, in the words of documents 01 and 02.
impl fmt::Display for Refusal {
    fn fmt<W: fmt::Write>(&self, f: &mut fmt::Formatter<W>) -> fmt::Result {
        f.write_str(match self {
            Refusal::LogTooLong(_) => "over 65,536 bytes",
            Refusal::ByteAbove1(_) => "a byte above 1 in it",
            Refusal::TooFewBytes(_) => "fewer than 302 bytes from p",
            Refusal::StartPair(_) => "start pair unequal",
            Refusal::WordBroken(_) => "a word breaks the table",
            Refusal::Preamble => "preamble differs",
            Refusal::Ending(_) => "word 2 or 10 ends unlike the start pair",
            Refusal::SubframeNumber(_) => "subframe number 0, 6 or 7",
            Refusal::Count(_) => "count above 100,799",
            Refusal::NoBlock(_) => "no accepted block at or after p",
            Refusal::NotWritable => {
                "a value outside its field, or a subframe number or ID of another kind"
            }
            Refusal::BlockBuffer(_) => "buffer under 302 bytes",
            Refusal::Satellite(_) => "satellite or SV ID not 1 to 32",
            Refusal::GpsSecond => "week above 8,191 or second above 604,799",
            Refusal::DayNumber(_) => "DN not 1 to 7",
            Refusal::WeekDifference => "week difference -128",
            Refusal::SubframeNotHeld(_) => "subframe 1, 2 or 3 not held",
            Refusal::Issue => "IODC low, IODE of 2 and of 3 not all equal",
            Refusal::Health(_) => "first health bit is 1",
            Refusal::PageNotHeld => "almanac or UTC page not held",
            Refusal::RankingBuffer => "buffer under 32 bytes",
        })
    }
}

impl Error for Refusal {}
