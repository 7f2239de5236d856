// The worked flight through the library's calls, for a program of one's own to start from.
#![tactic(auto)]

use board::{Draft, Line, Row, RowKind};
use costs::Points;

// Of each row: its kind, the modes that it leaves and enters, label, action and cost.
const ROWS: [(RowKind, u8, u8, u8, u8, u32); 7] = [
    (RowKind::Open, 0, 1, 0, 0, 1),
    (RowKind::Plain, 1, 1, 1, 7, 4),
    (RowKind::Plain, 1, 1, 2, 8, 9),
    (RowKind::Close, 1, 0, 0, 0, 1),
    (RowKind::Plain, 0, 2, 2, 9, 3),
    (RowKind::End, 2, 2, 0, 0, 0),
    (RowKind::End, 0, 0, 0, 0, 20),
];

// Of each line: the moments that it leaves and enters, event and cost.
const LINES: [(u8, u8, u8, u32); 2] = [(0, 1, 1, 0), (1, 2, 2, 0)];

fn main(rt: HostRuntime) -> anyhow::Result<()> {
    let mut draft = Draft::<Points>::new();
    draft.size(3, 3)?;
    for (kind, from, to, label, action, cost) in ROWS {
        draft.add_row(Row {
            kind,
            from,
            to,
            label,
            action,
            cost,
        })?;
    }
    for (from, to, event, cost) in LINES {
        draft.add_line(Line {
            from,
            to,
            event,
            cost,
        })?;
    }
    let settled = draft.settle();
    let (cost, moves) = settled.cost()?;
    println!(rt; "cost {cost}, {moves} moves")?;
    let mut buffer = [0; 40];
    let written = settled.path(&mut buffer)?;
    for packed in buffer.iter().take(written) {
        println!(rt; "{packed:04x}")?;
    }
    Ok(())
}
