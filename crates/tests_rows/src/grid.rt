//! Grids over warehouses in memory, and the lines that ask for them with their replies as text.

use crate::stored::{Stored, made, put};
use bw_types::{Kind, Object, Params, Query, Row, query_fits};
use grid_report::{Grid, GridDesk, GridFault, grid, grid_fits};
use page_space::OpenFault;
use ports::{MemSink, MemSource};
use row_machine::{Ending, answer_lines};
use std::alloc::{AllocError, Global};
use std::test::Fail;
use warehouse::House;

// Square functions on a line, of plain and of signed coordinates.
const LINE: Params = Params {
    dims: 1,
    degree: Some(2),
    events: 1000000,
    pages: 1048576,
    origin: 0,
};

const SIGNED_LINE: Params = Params {
    dims: 1,
    degree: Some(1),
    events: 1000000,
    pages: 1048576,
    origin: 2147483647,
};

// Linear functions over a plane, and constant ones.
const PLANE: Params = Params {
    dims: 2,
    degree: Some(1),
    events: 1000000,
    pages: 1048576,
    origin: 0,
};

const FLAT_PLANE: Params = Params {
    dims: 2,
    degree: Some(0),
    events: 1000000,
    pages: 1048576,
    origin: 0,
};

fn object(id: u64, low: [u32; 3], high: [u32; 3], first: [i64; 4]) -> Object {
    let mut coeffs = [0; 27];
    coeffs[0] = first[0];
    coeffs[1] = first[1];
    coeffs[2] = first[2];
    coeffs[3] = first[3];
    Object {
        id,
        low,
        high,
        weight: 1,
        coeffs,
    }
}

// The product of the coordinates over a square, and 2 more than the first coordinate over a rectangle.
fn square_and_rectangle(alloc: Global) -> Result<Option<Stored>, OpenFault> {
    let rows = [
        Row::Add(object(1, [0, 0, 0], [4, 4, 0], [0, 0, 0, 1])),
        Row::Add(object(2, [1, 2, 0], [3, 6, 0], [2, 0, 1, 0])),
    ];
    Ok(put(made(alloc, &PLANE)?, &rows))
}

// The square of the coordinate from 0 to 3.
fn parabola(alloc: Global) -> Result<Option<Stored>, OpenFault> {
    let rows = [Row::Add(object(1, [0, 0, 0], [3, 0, 0], [0, 0, 1, 0]))];
    Ok(put(made(alloc, &LINE)?, &rows))
}

// The integrals over the cells of a grid that keeps the rules.
fn asked(
    alloc: Global,
    house: &mut Stored,
    asked: &Grid,
    version: u32,
) -> Option<Result<Vec<i128>, GridFault>> {
    if !grid_fits(&house.params(), asked) {
        return None;
    }
    Some(grid(alloc, house, asked, version))
}

// The integral over a box.
fn integral(house: &mut Stored, low: [u32; 3], high: [u32; 3]) -> Option<i128> {
    let query = Query {
        kind: Kind::Integral,
        low,
        high,
    };
    if !query_fits(&query, &house.params()) {
        return None;
    }
    let last = house.last();
    house.query(&query, last).ok()
}

// What is replied to an input.
fn replies(alloc: Global, house: Stored, input: &[u8]) -> Result<(Ending, Vec<u8>), AllocError> {
    let mut desk = GridDesk::new(alloc, house);
    let mut source = MemSource::new(Vec::from_slice(alloc, input)?, 7, Vec::new(alloc));
    let mut sink = MemSink::new(alloc, Vec::new(alloc));
    let ending = answer_lines(alloc, &mut desk, &mut source, &mut sink);
    Ok((ending, Vec::from_slice(alloc, sink.bytes())?))
}

#[test]
fn one_cell_is_the_integral_of_its_box(rt: HostRuntime) -> Result<(), Fail> {
    let one = Grid {
        low: [1, 0, 9],
        step: [1, 3, 9],
        cells: [1, 1, 9],
    };
    let house = square_and_rectangle(rt.alloc())?;
    assert!(rt; house.is_some());
    if let Some(mut house) = house {
        let values = asked(rt.alloc(), &mut house, &one, 1);
        let whole = integral(&mut house, [1, 0, 0], [2, 3, 0]);
        assert!(rt; matches!(&values, Some(Ok(_))));
        if let Some(Ok(values)) = values {
            assert_eq!(rt; values.as_slice(), [369].as_slice());
            assert_eq!(rt; whole, Some(369));
        }
    }
    Ok(())
}

#[test]
fn cells_add_up_to_the_whole(rt: HostRuntime) -> Result<(), Fail> {
    let cut = Grid {
        low: [0, 1, 0],
        step: [2, 1, 0],
        cells: [3, 4, 0],
    };
    let expected = [108, 306, 378, 126, 324, 702, 918, 162, 0, 0, 0, 0];
    let house = square_and_rectangle(rt.alloc())?;
    assert!(rt; house.is_some());
    if let Some(mut house) = house {
        let values = asked(rt.alloc(), &mut house, &cut, 1);
        let whole = integral(&mut house, [0, 1, 0], [6, 5, 0]);
        assert!(rt; matches!(&values, Some(Ok(_))));
        if let Some(Ok(values)) = values {
            assert_eq!(rt; values.as_slice(), expected.as_slice());
            assert_eq!(rt; whole, Some(3024));
        }
        // Nothing was there at version 0, and there is no version 2.
        let before = asked(rt.alloc(), &mut house, &cut, 0);
        assert!(rt; matches!(&before, Some(Ok(values)) if values.as_slice() == [0; 12].as_slice()));
        let after = asked(rt.alloc(), &mut house, &cut, 2);
        assert!(rt; matches!(&after, Some(Err(GridFault::NoVersion(1)))));
    }
    Ok(())
}

#[test]
fn lines_are_answered(rt: HostRuntime) -> Result<(), Fail> {
    let input = b"grid,now,0,1,3\n\
        grid,0,0,2,1\n\
        grid,1,4294967290,1,4\n\
        grid,1,4294967290,1,5\n\
        grid,2,0,1,3\n\
        grid,now,0,0,3\n\
        grid,now,0,1,0\n\
        grid,now,0,1\n\
        grid,now,0,1,3,0\n\
        integral,now,0,1\n\
        \n\
        grid,now,-1,1,3\n\
        \"grid\",\"1\",1,\"1\",1";
    let expected = b"grid,1,3\ncell,0,2\ncell,1,14\ncell,2,38\n\
        grid,0,1\ncell,0,0\n\
        grid,1,4\ncell,0,0\ncell,1,0\ncell,2,0\ncell,3,0\n\
        bad,4\n\
        noversion,5\n\
        bad,6\nbad,7\nbad,8\nbad,9\nbad,10\nbad,11\nbad,12\n\
        grid,1,1\ncell,0,14\n";
    let house = parabola(rt.alloc())?;
    assert!(rt; house.is_some());
    if let Some(house) = house {
        let (ending, text) = replies(rt.alloc(), house, input)?;
        assert_eq!(rt; ending, Ending::Fine);
        assert_eq!(rt; text.as_slice(), expected.as_slice());
    }
    Ok(())
}

#[test]
fn cells_of_a_plane_have_two_indexes(rt: HostRuntime) -> Result<(), Fail> {
    let input = b"grid,now,0,2,2,1,1,3\n";
    let expected = b"grid,1,6\n\
        cell,0,0,108\ncell,0,1,306\ncell,0,2,378\n\
        cell,1,0,324\ncell,1,1,702\ncell,1,2,918\n";
    let house = square_and_rectangle(rt.alloc())?;
    assert!(rt; house.is_some());
    if let Some(house) = house {
        let (ending, text) = replies(rt.alloc(), house, input)?;
        assert_eq!(rt; ending, Ending::Fine);
        assert_eq!(rt; text.as_slice(), expected.as_slice());
    }
    Ok(())
}

#[test]
fn coordinates_below_zero(rt: HostRuntime) -> Result<(), Fail> {
    let zero = Params::SIGNED_ORIGIN;
    let line = object(1, [zero - 2, 0, 0], [zero + 2, 0, 0], [0, 1, 0, 0]);
    let house = put(made(rt.alloc(), &SIGNED_LINE)?, &[Row::Add(line)]);
    assert!(rt; house.is_some());
    if let Some(house) = house {
        let (ending, text) = replies(rt.alloc(), house, b"grid,now,-2,2,2\n")?;
        assert_eq!(rt; ending, Ending::Fine);
        assert_eq!(rt;
            text.as_slice(),
            b"grid,1,2\ncell,0,-12\ncell,1,12\n".as_slice()
        );
    }
    Ok(())
}

#[test]
fn the_greatest_grid_has_4096_corners(rt: HostRuntime) -> Result<(), Fail> {
    let flat = object(1, [0, 0, 0], [63, 63, 0], [1, 0, 0, 0]);
    let greatest = Grid {
        low: [0; 3],
        step: [1; 3],
        cells: [63, 63, 4294967295],
    };
    let greater = Grid {
        low: [0; 3],
        step: [1; 3],
        cells: [63, 64, 0],
    };
    let house = put(made(rt.alloc(), &FLAT_PLANE)?, &[Row::Add(flat)]);
    assert!(rt; house.is_some());
    if let Some(mut house) = house {
        let values = asked(rt.alloc(), &mut house, &greatest, 1);
        assert!(rt; matches!(&values, Some(Ok(_))));
        if let Some(Ok(values)) = values {
            assert_eq!(rt; values.as_slice(), [36; 3969].as_slice());
        }
        assert!(rt; asked(rt.alloc(), &mut house, &greater, 1).is_none());
        let (ending, text) = replies(rt.alloc(), house, b"grid,now,0,1,63,0,1,64\n")?;
        assert_eq!(rt; ending, Ending::Fine);
        assert_eq!(rt; text.as_slice(), b"bad,1\n".as_slice());
    }
    Ok(())
}
