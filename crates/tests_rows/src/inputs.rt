//! That rows are read with ample memory, with quotes and without.
ghost use Rattle.std.specs.Prelude.{◌≤◌, IfSome};
ghost use Rattle.bw_types.specs.Fits.{IsInRange};

use bw_types::{Kind, Object, Params, Query, Row};
use csv_rows::{Input, RowReader};

fn warehouse(dims: u8, degree: Option<u8>) -> Params
    requires some_dims { 1 ≤ dims }
    requires dims { dims ≤ 3 }
    requires degree { IfSome degree (λ g. g ≤ 2) }
    ensures { IsInRange result }
{
    Params {
        dims,
        degree,
        events: 1000000,
        pages: 1048576,
        origin: 0,
    }
}

fn ask(kind: Kind) -> Option<Input> {
    let query = Query {
        kind,
        low: [120, 190, 0],
        high: [139, 209, 0],
    };
    Some(Input::Ask {
        version: None,
        query,
    })
}

#[test]
fn reads_good_lines(rt: HostRuntime) {
    let params = warehouse(2, Some(0));
    let mut coeffs = [0; 27];
    coeffs[0] = 7;
    let object = Object {
        id: 501,
        low: [100, 200, 0],
        high: [149, 259, 0],
        weight: 1,
        coeffs,
    };
    let add = Some(Input::Stage {
        session: 1,
        row: Row::Add(object),
    });
    for (line, want) in [
        (b"\"add\",1,\"501\",100,149,200,259,1,7".as_slice(), add),
        (b"add,1,501,100,149,200,259,1,7".as_slice(), add),
        (
            b"\"commit\",1".as_slice(),
            Some(Input::Commit { session: 1 }),
        ),
        (b"drop,2".as_slice(), Some(Input::Drop { session: 2 })),
        (
            b"\"integral\",now,120,139,190,209".as_slice(),
            ask(Kind::Integral),
        ),
        (b"sum,now,120,139,190,209".as_slice(), ask(Kind::Sum)),
    ] {
        assert_eq!(rt;
            RowReader::new(rt.alloc()).read_row(rt.alloc(), line, &[], &params),
            Ok(want)
        );
    }
}

#[test]
fn refuses_bad_lines(rt: HostRuntime) {
    let params = warehouse(1, None);
    for line in [
        b"add,1,1,6,5,1".as_slice(),
        b"add,1,1,0,4294967295,1".as_slice(),
        b"".as_slice(),
        b"total,1".as_slice(),
        b"add,17,1,0,1,1".as_slice(),
        b"integral,now,0,1".as_slice(),
        [b'7'; 5000].as_slice(),
    ] {
        assert_eq!(rt;
            RowReader::new(rt.alloc()).read_row(rt.alloc(), line, &[], &params),
            Ok(None)
        );
    }
}
