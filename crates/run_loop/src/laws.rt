//! Laws of a run's requests: public functions with no parameters, whose contracts are the laws.
ghost use Rattle.run_loop.specs.Laws.{FirstRequestsAreFront};

use script_reader::laws::{has_one_list, requests_go_on};

/// Requests that are first in what was read of an input are a front of those of the whole input.
pub fn first_requests_are_front()
    ensures { FirstRequestsAreFront }
{
    has_one_list();
    requests_go_on();
}
