//! The page of what files defined.
use clos_explained::{Output, Session, limits, run_paged, settings};
use clos_page::{Columns, Edge, Graph, crossings, put_in_order, settle_heights};
use lisp_data::ClassId;
use std::fs::{self, Files};
use std::process::Abort;
use std::test::Fail;

/// Runs a file, and gives the status. The page is `page.html`, and what is written is told.
fn status<R: Files + AllocGlobal>(
    rt: &R,
    name: &str,
    page: &str,
    output: &mut Vec<u8>,
    errors: &mut Vec<u8>,
) -> Result<u8, Fail> {
    let alloc = rt.alloc();
    let words = ["clos", name];
    let settings = settings(alloc, &words)?;
    let mut session = Session::new(alloc, limits(&settings), Vec::new(alloc), Vec::new(alloc))?;
    let mut input: &[u8] = b"(defclass shown () ())";
    Ok(run_paged(
        rt,
        alloc,
        &mut session,
        &settings,
        page,
        &mut input,
        &mut Output::new(output),
        errors,
    ))
}

const SHOP: &str = "(defclass item () ((price :initarg :price :reader price)))
(defclass taxed () ())
(defclass book (item) ())
(defclass wine (item taxed) ())
(defclass <gift> (wine missing) ())
(defmethod sell ((i item) n) (princ (* n (price i))))
(defmethod sell :before ((w taxed) n) n)
(sell 1 2)
(defgeneric unused (x))
(defvar *wine* (make-instance 'wine :price 3))
(print (sell *wine* 2))
(let ((n 1)) (sell (make-instance 'book :price 5) n))
";

/// What stands in the page of these forms.
const IN_PAGE: [&str; 14] = [
    "<title>shop.lisp</title>",
    "<h1>shop.lisp</h1>",
    "<title>WINE: WINE ITEM TAXED STANDARD-OBJECT T</title>",
    "<title>&lt;GIFT&gt;: a class above it is not defined</title>",
    "<section id=\"class-22\"><pre>#&lt;CLASS ITEM&gt;\n  direct superclasses STANDARD-OBJECT\n",
    "  slots               PRICE from ITEM, initargs :PRICE\n",
    "<pre>#&lt;GENERIC-FUNCTION SELL&gt;\n  arguments           2 required\n",
    "<pre>#&lt;GENERIC-FUNCTION UNUSED&gt;\n",
    "<pre>#&lt;GENERIC-FUNCTION PRICE&gt;\n",
    "<h3><code>(SELL *WINE* 2)</code></h3><pre>#&lt;GENERIC-FUNCTION SELL&gt;\n  classes             WINE INTEGER\n",
    "#&lt;METHOD SELL :BEFORE (TAXED T)&gt;, since ITEM comes before TAXED for argument 1\n",
    "<h3><code>(SELL (MAKE-INSTANCE (QUOTE BOOK) :PRICE 5) N)</code></h3><pre>UNBOUND-VARIABLE: no variable here is called N\n",
    "<text x=\"232\" y=\"",
    "<path d=\"M",
];

#[test]
fn shows_what_files_defined(rt: HostRuntime) -> Result<(), Fail> {
    let alloc = rt.alloc();
    let mut output = Vec::new(alloc);
    let mut errors = Vec::new(alloc);
    fs::write(&rt, "shop.lisp", SHOP)?;
    let got = status(&rt, "shop.lisp", "page.html", &mut output, &mut errors)?;
    assert_eq!(rt; got, 1);
    let page = fs::read_to_string(&rt, "page.html")?;
    for part in IN_PAGE.iter() {
        assert!(rt; page.contains(part), "{part} in {page}");
    }
    assert!(rt; !page.contains("INITIALIZE-INSTANCE"), "{page}");
    assert!(rt; !page.contains("<h3><code>(SELL 1 2)"), "{page}");
    Ok(())
}

/// Files, pages and what is told: a file that can't be read as data, one that is not there, and a page that can't be written.
const UNWRITTEN: [(&str, &str, &str); 3] = [
    (
        "open.lisp",
        "open.html",
        "open.lisp:1:11: the input ends inside of what begins here\nclos: open.lisp: reader fault 1 at 10\n",
    ),
    ("none.lisp", "none.html", "clos: none.lisp: read fault\n"),
    (
        "one.lisp",
        "no/one.html",
        "clos: no/one.html: write fault\n",
    ),
];

#[test]
fn tells_why_there_is_no_page(rt: HostRuntime) -> Result<(), Fail> {
    let alloc = rt.alloc();
    fs::write(&rt, "open.lisp", "(princ 1) (list")?;
    fs::write(&rt, "one.lisp", "(princ 1)")?;
    for (name, page, wanted) in UNWRITTEN.iter() {
        let mut output = Vec::new(alloc);
        let mut errors = Vec::new(alloc);
        let got = status(&rt, *name, *page, &mut output, &mut errors)?;
        let text = str::from_utf8(errors.as_slice()).unwrap_or("?");
        assert_eq!(rt; got, 3);
        assert_eq!(rt; text, *wanted);
        assert!(rt; fs::metadata(&rt, *page).is_err(), "{page} is written");
    }
    Ok(())
}

#[test]
fn shows_what_comes_by_the_input(rt: HostRuntime) -> Result<(), Fail> {
    let alloc = rt.alloc();
    let mut output = Vec::new(alloc);
    let mut errors = Vec::new(alloc);
    let got = status(&rt, "-", "input.html", &mut output, &mut errors)?;
    assert_eq!(rt; got, 0);
    let page = fs::read_to_string(&rt, "input.html")?;
    assert!(rt; page.contains("<pre>#&lt;CLASS SHOWN&gt;"), "{page}");
    assert!(rt;
        page.contains("The last forms call no generic function."),
        "{page}"
    );
    Ok(())
}

/// How far each vertex stands below the one before it in its column, at the least.
const GAP: i64 = 36;

/// Classes and those below them, by their numbers: two below two others, the other way around, and one that is below two columns.
const EDGES: [(usize, usize); 4] = [(0, 3), (1, 2), (2, 4), (0, 4)];

/// How much lower the second of these stands.
fn distance(heights: &[i64], above: usize, below: usize) -> i64 {
    match (heights.get(above), heights.get(below)) {
        (Some(first), Some(second)) => second.saturating_sub(*first),
        _ => 0,
    }
}

#[test]
fn puts_classes_in_order(rt: HostRuntime) -> Result<(), Fail> {
    let alloc = rt.alloc();
    let mut graph = Graph {
        classes: Vec::new(alloc),
        edges: Vec::new(alloc),
    };
    for number in 0..5 {
        graph.classes.push(ClassId(number))?;
    }
    for (above, below) in EDGES.iter() {
        let edge = Edge {
            above: *above,
            below: *below,
        };
        graph.edges.push(edge)?;
    }
    let mut columns = Columns::new(alloc, &graph)?;
    assert_eq!(rt; columns.column.as_slice(), [0, 0, 1, 1, 2, 1].as_slice());
    assert_eq!(rt; crossings(alloc, &columns)?, 2);
    put_in_order(alloc, &mut columns)?;
    assert_eq!(rt; crossings(alloc, &columns)?, 0);
    let heights = settle_heights(alloc, &columns, GAP)?;
    assert_eq!(rt; heights.iter().copied().min(), Some(0));
    for vertices in columns.vertices.iter() {
        let mut before = None;
        for vertex in vertices.iter() {
            if let Some(above) = before {
                assert!(rt; distance(heights.as_slice(), above, *vertex) >= GAP);
            }
            before = Some(*vertex);
        }
    }
    Ok(())
}
