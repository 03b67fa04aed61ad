// Calls that a caller ends by numbers of its own: what the core has no case for is handed on and told as it stands. Tests alone.
#![tactic(auto)]

#[cfg(test)]
mod tests {
    use numbers::CallResult;
    use rules::{EndedCall, Event, File, Position, Rights, Run, Shape, Status};
    use running::Ends;

    fn running_call() -> Run {
        let place = Position {
            page: 1,
            line: 2,
            character: 3,
        };
        let shape = Shape {
            pages: 2,
            lines: 3,
            characters: 8,
        };
        let rights = Rights {
            get: true,
            put: true,
            set: true,
            reset: true,
            compress: false,
        };
        let file = File {
            position: place,
            shape: shape,
            opened: true,
            reading: true,
            writing: false,
            split: false,
            rights: rights,
        };
        Run {
            file: file,
            end: place,
            events: 4,
            taken: 2,
        }
    }

    // Number, stop and event of a result.
    fn told(call: CallResult) -> [u8; 3] {
        [call.number, call.stop, call.event]
    }

    #[test]
    fn any_number_is_refused(rt: HostRuntime) {
        for number in [0u8, 7, 13, 17, 255] {
            let result_of = numbers::in_numbers(entry::refuse(running_call(), number));
            assert_eq!(rt; told(result_of), [number, 0, 0]);
            assert_eq!(rt; result_of.count, 0);
            assert_eq!(rt; result_of.taken, 2);
        }
    }

    #[test]
    fn any_number_ends_a_call(rt: HostRuntime) {
        let run = running_call();
        let refused = numbers::in_numbers(entry::ended(Err(running::refused(run, 13u8))));
        let after_event = numbers::in_numbers(entry::ended(Err(running::refused_at(
            run,
            Some(Event::LineEnd),
            7u8,
        ))));
        let after_none = numbers::in_numbers(entry::ended(Err(running::refused_at(
            run, None, 7u8,
        ))));
        let stopped = numbers::in_numbers(entry::ended(Err(running::stopped(run, 9u8))));
        assert_eq!(rt; told(refused), [13, 0, 0]);
        assert_eq!(rt; told(after_event), [7, 0, 4]);
        assert_eq!(rt; told(after_none), [7, 0, 0]);
        assert_eq!(rt; told(stopped), [0, 9, 0]);
    }

    // Number 0 and stop 0 end no call, and then no event is told.
    #[test]
    fn a_step_that_is_done_tells_nothing_more(rt: HostRuntime) {
        let run = running_call();
        let done = running::refused_at(run, Some(Event::LineEnd), 0u8);
        let status = Status {
            number: 0,
            stop: 0,
            event: Some(Event::LineEnd),
        };
        let by_status = EndedCall {
            run: run,
            ending: status,
        };
        assert!(rt; done.ending.is_done());
        assert!(rt; !running::refused(run, 1u8).ending.is_done());
        assert_eq!(rt;
            told(numbers::in_numbers(entry::ended(Err(done)))),
            [0, 0, 0]
        );
        assert_eq!(rt;
            told(numbers::in_numbers(entry::ended(Err(by_status)))),
            [0, 0, 0]
        );
    }

    #[test]
    fn a_status_is_told_whole(rt: HostRuntime) {
        let status = Status {
            number: 3,
            stop: 2,
            event: Some(Event::Value),
        };
        let counted = entry::reply(running_call(), 5, Err(status));
        let in_numbers = numbers::in_numbers(counted);
        assert_eq!(rt; told(in_numbers), [3, 2, 6]);
        assert_eq!(rt; in_numbers.count, 5);
        assert_eq!(rt; numbers::result_of(counted, 1, 2, 3, 4, 5).value, 5);
    }

    #[test]
    fn no_event_has_number_0(rt: HostRuntime) {
        assert_eq!(rt; numbers::event_number(None), 0);
        assert_eq!(rt; numbers::event_number(Some(Event::Value)), 6);
        assert_eq!(rt; numbers::event_number(Event::Value), 6);
    }
}
