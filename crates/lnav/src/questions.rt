// The questions to the collector, and those about a record that stands on the line.
use crate::command::Question;
use crate::given::values_of_kind;
use crate::problem::Problem;
use crate::request::Request;
use crate::session::Session;
use answer::Refusal;
use record::{Kind, Record, Subframe1, UtcPage};

impl<'a, R: Print> Session<'a, R> {
    // The subframe 1 that stands on the line, or else that of a satellite's orbit set.
    fn subframe1(&self, request: &Request<'_>) -> Result<Result<Subframe1, Refusal>, Problem> {
        match request.record {
            Some(i) => {
                let values = values_of_kind(request.line, i, Kind::Subframe1)?;
                Ok(from_values::subframe1_with(&values))
            }
            None => Ok(
                self.collector
                    .set(request.first as usize)
                    .map(|set| set.subframe1),
            ),
        }
    }

    // The UTC page that stands on the line, or else the one that is held. One function for both would take the two questions as closures, and be no
    // plainer.
    fn utc_page(&self, request: &Request<'_>) -> Result<Result<UtcPage, Refusal>, Problem> {
        match request.record {
            Some(i) => {
                let values = values_of_kind(request.line, i, Kind::Utc)?;
                Ok(from_values::utc_page_with(&values))
            }
            None => Ok(self.collector.utc_page()),
        }
    }

    // Answers a question.
    pub(crate) fn ask(&self, question: Question, request: Request<'_>) -> Result<(), Problem> {
        let rt = self.rt;
        let number = request.first as usize;
        match question {
            Question::Set => commands::print_set(rt, self.collector.set(number)),
            Question::Almanac => {
                commands::print_page(rt, self.collector.almanac(number).map(Record::Almanac))
            }
            Question::Utc => commands::print_page(rt, self.collector.utc_page().map(Record::Utc)),
            Question::Clock => commands::print_clock(rt, self.subframe1(&request)?),
            Question::Accuracy => commands::print_accuracy(rt, self.subframe1(&request)?),
            Question::Time => commands::print_time(
                rt,
                self.utc_page(&request)?,
                request.first,
                request.second,
            ),
        }
        Ok(())
    }
}
