//! Evenings: links that one hall serves, one after the other.
ghost use Rattle.troop_hall.specs.Seats.{IsDeskSeat};

use crate::links::{Dialled, Reading, new_hall, serve};
use session::SessionEnd;
use std::alloc::Global;
use std::process::Abort;
use std::sync::Wait;
use std::test::Fail;
use troop_hall::{DeskHall, DeskSeat};

/// The links of each evening, which begins with an empty log.
const EVENINGS: &[&[Dialled]] = &[
    &[
        Dialled {
            name: "an up line, byte by byte",
            bytes: "{\"call\":\"join\",\"lang\":\"lines\",\"name\":\"ann\"}\n{\"call\":\"edit\"}\n{\"call\":\"edit\",\"op\":[\"hi\"],\"seen\":1}\n",
            reading: Reading::Bytes,
            written: "{\"at\":0,\"who\":1}\n{\"line\":2,\"no\":\"bad\"}\n{\"at\":1,\"who\":1}\n",
            end: SessionEnd::Left,
        },
        Dialled {
            name: "a down line",
            bytes: "{\"call\":\"down\",\"from\":0,\"who\":1}\n",
            reading: Reading::Lines,
            written: "{\"at\":0,\"deed\":\"join\",\"lang\":\"lines\",\"name\":\"ann\",\"seen\":0,\"who\":1}\n{\"at\":1,\"deed\":\"edit\",\"op\":[\"hi\"],\"seen\":1,\"who\":1}\n{\"at\":2,\"deed\":\"leave\",\"seen\":2,\"who\":1}\n",
            end: SessionEnd::Left,
        },
        Dialled {
            name: "a down line behind the leave",
            bytes: "{\"call\":\"down\",\"from\":3,\"who\":1}\n",
            reading: Reading::Lines,
            written: "",
            end: SessionEnd::Left,
        },
        Dialled {
            name: "a down line past the end",
            bytes: "{\"call\":\"down\",\"from\":4,\"who\":1}\n",
            reading: Reading::Lines,
            written: "{\"line\":1,\"no\":\"unfit\"}\n",
            end: SessionEnd::Unfit { line: 1 },
        },
        Dialled {
            name: "a down line of nobody",
            bytes: "{\"call\":\"down\",\"from\":0,\"who\":2}\n",
            reading: Reading::Lines,
            written: "{\"line\":1,\"no\":\"unfit\"}\n",
            end: SessionEnd::Unfit { line: 1 },
        },
        Dialled {
            name: "a snap request",
            bytes: "{\"call\":\"snap\",\"who\":1}\n",
            reading: Reading::Lines,
            written: "{\"at\":1,\"marks\":[],\"text\":\"\"}\n{\"at\":1,\"deed\":\"edit\",\"op\":[\"hi\"],\"seen\":1,\"who\":1}\n{\"at\":2,\"deed\":\"leave\",\"seen\":2,\"who\":1}\n",
            end: SessionEnd::Left,
        },
        Dialled {
            name: "a snap request of nobody",
            bytes: "{\"call\":\"snap\",\"who\":2}\n",
            reading: Reading::Lines,
            written: "{\"line\":1,\"no\":\"unfit\"}\n",
            end: SessionEnd::Unfit { line: 1 },
        },
        Dialled {
            name: "another joins, and leaves by itself",
            bytes: "{\"call\":\"join\",\"lang\":\"ghci\",\"name\":\"bo\"}\n{\"call\":\"leave\",\"num\":1}\n{\"call\":\"leave\"}\n",
            reading: Reading::Lines,
            written: "{\"at\":3,\"who\":2}\n{\"at\":4,\"who\":2}\n",
            end: SessionEnd::Left,
        },
        Dialled {
            name: "a snapshot of what others typed",
            bytes: "{\"call\":\"snap\",\"who\":2}\n",
            reading: Reading::Lines,
            written: "{\"at\":4,\"marks\":[[1,2]],\"text\":\"hi\"}\n{\"at\":4,\"deed\":\"leave\",\"seen\":4,\"who\":2}\n",
            end: SessionEnd::Left,
        },
        Dialled {
            name: "no line",
            bytes: "",
            reading: Reading::Lines,
            written: "",
            end: SessionEnd::Left,
        },
        Dialled {
            name: "a first line that opens nothing",
            bytes: "{\"call\":\"leave\"}\n",
            reading: Reading::Lines,
            written: "{\"line\":1,\"no\":\"unfit\"}\n",
            end: SessionEnd::Unfit { line: 1 },
        },
        Dialled {
            name: "a blank first line",
            bytes: "\n{\"call\":\"snap\",\"who\":1}\n",
            reading: Reading::Lines,
            written: "{\"line\":1,\"no\":\"unfit\"}\n",
            end: SessionEnd::Unfit { line: 1 },
        },
    ],
    &[
        Dialled {
            name: "an up line whose link is lost",
            bytes: "{\"call\":\"join\",\"lang\":\"lines\",\"name\":\"ann\"}\n{\"call\":\"edit\"}\n{\"call\":\"edit\",\"op\":[\"hi\"],\"seen\":1}\n",
            reading: Reading::FailsAt(3),
            written: "{\"at\":0,\"who\":1}\n{\"line\":2,\"no\":\"bad\"}\n",
            end: SessionEnd::LinkFault,
        },
        Dialled {
            name: "what it leaves",
            bytes: "{\"call\":\"down\",\"from\":0,\"who\":1}\n",
            reading: Reading::Lines,
            written: "{\"at\":0,\"deed\":\"join\",\"lang\":\"lines\",\"name\":\"ann\",\"seen\":0,\"who\":1}\n{\"at\":1,\"deed\":\"leave\",\"seen\":1,\"who\":1}\n",
            end: SessionEnd::Left,
        },
        Dialled {
            name: "all refusals of the log",
            bytes: "{\"call\":\"join\",\"lang\":\"lines\",\"name\":\"bo\"}\n{\"call\":\"eval\",\"seen\":9,\"text\":\"x\"}\n{\"call\":\"edit\",\"op\":[5],\"seen\":3}\n{\"call\":\"edit\",\"num\":1,\"op\":[\"a\"],\"seen\":3}\n{\"call\":\"edit\",\"num\":1,\"op\":[\"b\"],\"seen\":3}\n{\"call\":\"edit\",\"num\":1,\"op\":[\"a\"],\"seen\":3}\n{\"call\":\"snap\",\"who\":1}\n",
            reading: Reading::Lines,
            written: "{\"at\":2,\"who\":2}\n{\"length\":3,\"no\":\"ahead\",\"seen\":9}\n{\"got\":0,\"no\":\"base\",\"want\":5}\n{\"at\":3,\"who\":2}\n{\"at\":3,\"no\":\"clash\",\"num\":1}\n{\"at\":3,\"kept\":true,\"who\":2}\n{\"line\":7,\"no\":\"bad\"}\n",
            end: SessionEnd::Left,
        },
        Dialled {
            name: "who has left is told so",
            bytes: "{\"call\":\"back\",\"who\":2}\n{\"call\":\"eval\",\"seen\":3,\"text\":\"x\"}\n",
            reading: Reading::Lines,
            written: "{\"at\":2,\"kept\":true,\"who\":2}\n{\"no\":\"member\",\"who\":2}\n",
            end: SessionEnd::Away,
        },
    ],
    &[
        Dialled {
            name: "stay",
            bytes: "{\"call\":\"stay\",\"lang\":\"lines\",\"name\":\"ann\"}\n{\"call\":\"edit\",\"num\":1,\"op\":[\"hi\"],\"seen\":1}\n{\"call\":\"leave\"}\n",
            reading: Reading::FailsAt(3),
            written: "{\"at\":0,\"who\":1}\n{\"at\":1,\"who\":1}\n",
            end: SessionEnd::LinkFault,
        },
        Dialled {
            name: "back, and away again",
            bytes: "{\"call\":\"back\",\"who\":1}\n",
            reading: Reading::Lines,
            written: "{\"at\":0,\"kept\":true,\"who\":1}\n",
            end: SessionEnd::Away,
        },
        Dialled {
            name: "back",
            bytes: "{\"call\":\"back\",\"who\":1}\n{\"call\":\"edit\",\"num\":1,\"op\":[\"hi\"],\"seen\":1}\n{\"call\":\"leave\",\"num\":2}\n",
            reading: Reading::Lines,
            written: "{\"at\":0,\"kept\":true,\"who\":1}\n{\"at\":1,\"kept\":true,\"who\":1}\n{\"at\":2,\"who\":1}\n",
            end: SessionEnd::Left,
        },
        Dialled {
            name: "the leave again",
            bytes: "{\"call\":\"back\",\"who\":1}\n{\"call\":\"leave\",\"num\":2}\n{\"call\":\"leave\"}\n",
            reading: Reading::Lines,
            written: "{\"at\":0,\"kept\":true,\"who\":1}\n{\"at\":2,\"kept\":true,\"who\":1}\n",
            end: SessionEnd::Left,
        },
        Dialled {
            name: "a stranger",
            bytes: "{\"call\":\"back\",\"who\":2}\n{\"call\":\"leave\"}\n",
            reading: Reading::Lines,
            written: "{\"no\":\"member\",\"who\":2}\n",
            end: SessionEnd::Stranger { who: 2 },
        },
    ],
];

// Serves the links one after the other.
fn serve_all<R: Wait + Abort>(
    rt: &R,
    alloc: Global,
    hall: &DeskHall,
    seat: &mut DeskSeat,
    links: &[Dialled],
) -> Result<(), Fail>
    requires { IsDeskSeat hall.now seat.old }
{
    for dialled in links {
        serve(rt, alloc, hall, seat, dialled)?;
    }
    Ok(())
}

#[test]
fn each_link_is_told_what_it_asked_for(rt: HostRuntime) -> Result<(), Fail> {
    let alloc = rt.alloc();
    for links in EVENINGS {
        let (hall, mut seat) = new_hall(alloc)?;
        serve_all(&rt, alloc, &hall, &mut seat, links)?;
    }
    Ok(())
}
