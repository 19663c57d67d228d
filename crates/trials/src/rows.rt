// Rows of least good fills, plans on them, the gauge, and what a plan sheet says of a closed line.
use crate::lines::{Told, line_p, line_q, refused, told};
use crate::marks::mark_file;
use game::Owner;
use gauge::{dip, height};
use hopper::{AnyVessel, Graded};
use linefile::FileLine;
use lineformat::Kind;
use sheet::SheetRow;
use sheet::closed::{least_marked_good, ordered_move};
use solver::{NEVER, least, mark, plan};
use std::alloc::Global;
use std::test::Fail;

// The rounds of `least` on a line with its own vessel, or number, layer and spot of the fault.
fn least_on<V: Graded>(
    heap: Global,
    line: &FileLine,
    vessel: &V,
    row: &mut [u32],
    next: &mut [u32],
    budget: u64,
) -> Told {
    told(least(heap, line, vessel, row, next, budget))
}

// The same of a file over a graded vessel; 99 stands for any other file.
fn least_of(heap: Global, file: &[u8], row: &mut [u32], next: &mut [u32], budget: u64) -> Told {
    match FileLine::try_from(file) {
        Err(fault) => refused(fault),
        Ok(line) => match line.vessel() {
            AnyVessel::OfLip(vessel) => least_on(heap, &line, &vessel, row, next, budget),
            AnyVessel::OfDrawn(vessel) => least_on(heap, &line, &vessel, row, next, budget),
            AnyVessel::OfClosed(_) => (99, 0, 0),
        },
    }
}

#[test]
fn least_fills_of_p_and_q(rt: HostRuntime) -> Result<(), Fail> {
    let heap = rt.alloc();
    let mut row = [7u32; 3];
    let mut next = [8u32; 3];
    assert_eq!(rt;
        least_of(
            heap,
            &line_p(heap, Kind::Lip, 6, 0)?,
            &mut row,
            &mut next,
            14
        ),
        (0, 0, 1)
    );
    assert!(rt; row == [0, 5, 7] && next == [0, 5, 8]);
    assert_eq!(rt;
        least_of(
            heap,
            &line_p(heap, Kind::Lip, 5, 0)?,
            &mut row,
            &mut next,
            12
        ),
        (0, 0, 1)
    );
    assert!(rt; row == [0, 5, 7] && next == [0, 5, 8]);
    assert_eq!(rt;
        least_of(
            heap,
            &line_p(heap, Kind::Lip, 4, 0)?,
            &mut row,
            &mut next,
            10
        ),
        (0, 0, 2)
    );
    assert!(rt; row == [NEVER, NEVER, 7] && next == [NEVER, NEVER, 8]);
    assert_eq!(rt;
        least_of(
            heap,
            &line_p(heap, Kind::Drawn, 6, 1)?,
            &mut row,
            &mut next,
            14
        ),
        (0, 0, 3)
    );
    assert!(rt; row == [NEVER, NEVER, 7] && next == [NEVER, NEVER, 8]);
    assert_eq!(rt;
        least_of(heap, &line_q(heap, Kind::Lip, 10)?, &mut row, &mut next, 22),
        (0, 0, 1)
    );
    assert!(rt; row == [0, 2, 7] && next == [0, 2, 8]);
    Ok(())
}

#[test]
fn budgets_and_short_rows(rt: HostRuntime) -> Result<(), Fail> {
    let heap = rt.alloc();
    let file = line_p(heap, Kind::Drawn, 6, 1)?;
    let mut row = [7u32; 2];
    let mut next = [8u32; 2];
    // one short of the rounds: row 2 and row 3 stay in the buffers
    assert_eq!(rt;
        least_of(rt.alloc(), &file, &mut row, &mut next, 2),
        (20, 4, 2)
    );
    assert!(rt; row == [NEVER, 6] && next == [NEVER, NEVER]);
    assert_eq!(rt;
        least_of(rt.alloc(), &file, &mut row, &mut next, 3),
        (0, 0, 3)
    );
    assert_eq!(rt;
        least_of(rt.alloc(), &file, &mut row, &mut next, 0),
        (20, 4, 0)
    );
    assert!(rt; row == [0, 0] && next == [0, 6]);
    let mut short = [7u32; 1];
    assert_eq!(rt;
        least_of(rt.alloc(), &file, &mut row, &mut short, 9),
        (19, 4, 2)
    );
    assert_eq!(rt;
        least_of(rt.alloc(), &file, &mut short, &mut next, 9),
        (19, 4, 2)
    );
    assert!(rt; short == [7]);
    Ok(())
}

// What `plan` answers on a file with a lip.
fn plan_of(file: &[u8], row: &[u32], place: u32) -> Told {
    match FileLine::try_from(file) {
        Err(fault) => refused(fault),
        Ok(line) => match line.vessel() {
            AnyVessel::OfLip(vessel) => told(plan(&line, &vessel, row, place)),
            _ => (99, 0, 0),
        },
    }
}

#[test]
fn plans_and_their_refusals(rt: HostRuntime) -> Result<(), Fail> {
    let file = line_q(rt.alloc(), Kind::Lip, 10)?;
    assert_eq!(rt; plan_of(&file, &[0, 2], 0), (0, 0, 1));
    assert_eq!(rt; plan_of(&file, &[5, 2], 0), (0, 0, 0));
    assert_eq!(rt; plan_of(&file, &[0], 2), (18, 4, 2));
    assert_eq!(rt; plan_of(&file, &[0], 1), (19, 4, 2));
    assert_eq!(rt; plan_of(&file, &[0, 2], 1), (21, 4, 1));
    assert_eq!(rt; plan_of(&file, &[NEVER, 2], 0), (22, 4, 0));
    // an entry above the top is a number; a target's entry above it has no need
    assert_eq!(rt; plan_of(&file, &[11, 11], 0), (22, 4, 0));
    Ok(())
}

#[test]
fn the_gauge(rt: HostRuntime) {
    for (h, litres) in [(0, 0), (144, 0), (145, 1), (1_199, 574), (1_200, 576)] {
        assert_eq!(rt; told(dip(h)), (0, 0, litres));
    }
    assert_eq!(rt; told(dip(1_201)), (25, 4, 1_201));
    for (litres, h) in [(0, 0), (1, 145), (5, 247), (575, 1_200), (576, 1_200)] {
        assert_eq!(rt; told(height(litres)), (0, 0, h));
    }
    assert_eq!(rt; told(height(577)), (26, 4, 577));
}

// The least good fill of a place of a closed line and the move ordered there.
fn closed_row(heap: Global, file: &[u8], place: u32) -> (Option<u32>, Option<u32>) {
    let Ok(line) = FileLine::try_from(file) else {
        return (None, None);
    };
    let AnyVessel::OfClosed(vessel) = line.vessel() else {
        return (None, None);
    };
    let mut marks = [0u32; 32];
    let _rounds = mark(heap, &line, &vessel, &mut marks);
    let fill = least_marked_good(&marks, 6, place);
    (
        fill,
        ordered_move(&line, &vessel, &marks, place, fill.unwrap_or(0)),
    )
}

#[test]
fn rows_of_a_closed_line(rt: HostRuntime) -> Result<(), Fail> {
    let file = line_p(rt.alloc(), Kind::Closed, 6, 0)?;
    assert_eq!(rt; closed_row(rt.alloc(), &file, 0), (Some(0), Some(0)));
    assert_eq!(rt; closed_row(rt.alloc(), &file, 1), (Some(5), Some(0)));
    assert_eq!(rt; closed_row(rt.alloc(), &file, 2), (None, None));
    Ok(())
}

#[test]
fn rows_as_they_are_printed(rt: HostRuntime) -> Result<(), Fail> {
    let heap = rt.alloc();
    let high = SheetRow {
        place: 1,
        owner: Owner::Theirs,
        fill: Some(9_000),
        height: height(9_000).ok(),
        mv: None,
        name: "",
    };
    assert!(rt; format!(in heap; "{high}")?.as_str() == "1 theirs 9000 - - ");
    let none = SheetRow {
        place: 0,
        owner: Owner::Ours,
        fill: None,
        height: None,
        mv: None,
        name: "pit",
    };
    assert!(rt; format!(in heap; "{none}")?.as_str() == "0 ours none - - pit");
    Ok(())
}

// Whether the row of a file's line is this text.
fn line_reads(rt: &HostRuntime, file: &[u8], text: &str) -> Result<bool, Fail> {
    let line = FileLine::try_from(file)?;
    Ok(format!(in rt.alloc(); "{line}")?.as_str() == text)
}

#[test]
fn headers_of_the_three_kinds(rt: HostRuntime) -> Result<(), Fail> {
    let heap = rt.alloc();
    assert!(rt;
        line_reads(
            &rt,
            &line_p(heap, Kind::Lip, 6, 0)?,
            "line 2 places 2 moves lip 6"
        )?
    );
    assert!(rt;
        line_reads(
            &rt,
            &line_p(heap, Kind::Closed, 6, 0)?,
            "line 2 places 2 moves closed 6",
        )?
    );
    assert!(rt;
        line_reads(
            &rt,
            &line_p(heap, Kind::Drawn, 6, 1)?,
            "line 2 places 2 moves drawn 6 1",
        )?
    );
    Ok(())
}

// What marking a closed line answers with the marks of a sheet.
fn sheet_marks(rt: &HostRuntime, file: &[u8]) -> Result<Told, Fail> {
    let mut marks = vec![in rt.alloc(); 0u32; 8_192]?;
    Ok(mark_file(rt.alloc(), file, &mut marks))
}

#[test]
fn closed_lines_that_fit_a_sheet(rt: HostRuntime) -> Result<(), Fail> {
    let heap = rt.alloc();
    assert_eq!(rt;
        sheet_marks(&rt, &line_p(heap, Kind::Closed, 4_094, 0)?)?,
        (0, 0, 1)
    );
    assert_eq!(rt;
        sheet_marks(&rt, &line_p(heap, Kind::Closed, 4_095, 0)?)?,
        (17, 4, 8_193)
    );
    assert_eq!(rt;
        sheet_marks(&rt, &line_p(heap, Kind::Closed, 32_768, 0)?)?,
        (16, 4, 32_768)
    );
    Ok(())
}
