// The answers to the questions for an orbit set, an almanac page and the UTC page.
use answer::Refusal;
use console::given_or_refused;
use orbit_set::OrbitSet;
use record::Record;
use record_text::print_record;

fn print_records<R: Print>(rt: &R, set: OrbitSet) {
    print_record(rt, Record::Subframe1(set.subframe1));
    print_record(rt, Record::Subframe2(set.subframe2));
    print_record(rt, Record::Subframe3(set.subframe3));
}

// An orbit set is three lines.
pub fn print_set<R: Print>(rt: &R, set: Result<OrbitSet, Refusal>) {
    if let Some(given) = given_or_refused(rt, set) {
        print_records(rt, given);
    }
}

// A page is one.
pub fn print_page<R: Print>(rt: &R, page: Result<Record, Refusal>) {
    if let Some(given) = given_or_refused(rt, page) {
        print_record(rt, given);
    }
}
