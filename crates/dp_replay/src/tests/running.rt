//! The command `run` over objects in memory: training, and then what is sent over the link that was trained.

use super::sending::{CALM, Fails, PIXELS, Stage, TWO_FRAMES, ends, pixels};
use dpx_base::{MemPipe, MemSink, MemSource, Pixel};
use dpx_sinkmodel::PlanPort;
use std::alloc::Global;
use std::process::Abort;
use std::test::Fail;
use std::thread::Threads;

const FOUR_LANES: &str = "trained HBR3 4 requests 10\n\
    lane 0 swing 0 emphasis 0\n\
    lane 1 swing 0 emphasis 0\n\
    lane 2 swing 0 emphasis 0\n\
    lane 3 swing 0 emphasis 0\n\
    last 77 77 01 00 00 00\n";

const PLAN: &str = "plan symbols 12 n 1296000 m 25920000 unit 32 delay 112 end 225 bound 20\n";

/// A job with a modelled sink that has HBR3 in its extended field, four lanes and TPS4, and a channel with these
/// members.
fn job(
    alloc: Global,
    (rate, lanes): (&str, u8),
    mode: &str,
    channel: &str,
) -> Result<String, Fail> {
    let caps =
        r#""caps":"1214C481000000000000000000008000","extended":"141EC481000000000000000000008000""#;
    let link = format!(in alloc; "\"rate\":\"{rate}\",\"lanes\":{lanes}")?;
    let model = format!(in alloc; "{{{caps},\"channel\":{{{channel}}}}}")?;
    let text = format!(in alloc;
        "{{\"link\":{{{link}}},\"mode\":{{{mode},\"depth\":8}},\"sink\":{{\"model\":{model}}}}}"
    )?;
    Ok(text)
}

/// A run on the two frames ends so, and has handed out so much.
fn runs<R: Abort + Threads + Sync>(
    rt: &R,
    alloc: Global,
    command: &str,
    job: &str,
    fails: Fails,
    wanted: (&str, u8),
    handed: (usize, usize),
) -> Result<(), Fail> {
    let mut stage = Stage::new(alloc, job, pixels(alloc, PIXELS)?, fails)?;
    ends(rt, alloc, command, &mut stage, wanted)?;
    assert_eq!(rt; stage.handed(), handed, "{job}");
    Ok(())
}

#[test]
fn frames_are_sent_over_the_link_that_was_asked_for(rt: HostRuntime) -> Result<(), Fail> {
    let job = job(rt.alloc(), ("HBR3", 4), TWO_FRAMES, "")?;
    let report = format!(in rt.alloc(); "{FOUR_LANES}{PLAN}sent frames 2 lines 4 clocks 3464\n")?;
    for command in ["run a b c", "run a b c one", "run a b c lanes"] {
        let wanted = (report.as_str(), 0);
        runs(
            &rt,
            rt.alloc(),
            command,
            job.as_str(),
            CALM,
            wanted,
            (27_768, 3464),
        )?;
    }
    Ok(())
}

/// The link asked for, the channel, the report, the status, and the sizes of the capture and of the sets.
type Fallen = (
    (&'static str, u8),
    &'static str,
    &'static str,
    u8,
    (usize, usize),
);

const FALLEN: [Fallen; 3] = [
    // the third lane never equalises at HBR2
    (
        ("HBR2", 4),
        r#""HBR2":[[1,1,0,0],[1,1,0,0],[1,0,0,0],[1,1,0,0]]"#,
        "trained HBR2 2 requests 24\nlane 0 swing 0 emphasis 0\nlane 1 swing 0 emphasis 0\n\
        last 77 00 01 00 00 00\n\
        plan symbols 24 n 1296000 m 8640000 unit 32 delay 56 end 133 bound 20\n\
        sent frames 2 lines 4 clocks 2279\n",
        0,
        (9132, 2279),
    ),
    // the third lane never recovers its clock at HBR2 and HBR
    (
        ("HBR2", 4),
        r#""HBR2":[[1,1,0,0],[1,1,0,0],[0,0,0,0],[1,1,0,0]],"HBR":[[1,1,0,0],[1,1,0,0],[0,0,0,0],[1,1,0,0]]"#,
        "trained RBR 4 requests 34\nlane 0 swing 0 emphasis 0\nlane 1 swing 0 emphasis 0\n\
        lane 2 swing 0 emphasis 0\nlane 3 swing 0 emphasis 0\nlast 77 77 01 00 00 00\n\
        unfit no room have 84 need 94\n",
        5,
        (0, 0),
    ),
    // no lane recovers its clock at RBR
    (
        ("RBR", 1),
        r#""RBR":[[0,0,0,0],[0,0,0,0],[0,0,0,0],[0,0,0,0]]"#,
        "not trained requests 16\nlast 00 00 00 00 00 00\n",
        4,
        (0, 0),
    ),
];

fn falls<R: Abort + Threads + Sync>(
    rt: &R,
    alloc: Global,
    (link, channel, report, status, handed): Fallen,
) -> Result<(), Fail> {
    let job = job(alloc, link, TWO_FRAMES, channel)?;
    let wanted = (report, status);
    runs(rt, alloc, "run a b c", job.as_str(), CALM, wanted, handed)
}

#[test]
fn frames_are_sent_over_the_link_that_was_trained(rt: HostRuntime) -> Result<(), Fail> {
    for row in FALLEN {
        falls(&rt, rt.alloc(), row)?;
    }
    Ok(())
}

#[test]
fn a_job_without_mode_or_sink_is_refused_before_training(rt: HostRuntime) -> Result<(), Fail> {
    let jobs = [
        (r#"{"link":{"rate":"RBR","lanes":1}}"#, "job wrong mode\n"),
        (
            r#"{"link":{"rate":"RBR","lanes":1},"mode":{"width":16,"height":2,"htotal":28,"vtotal":4,
    "hsw":4,"hstart":8,"vsw":1,"vstart":2,"clock":54000,"depth":8}}"#,
            "job wrong sink\n",
        ),
    ];
    for (job, report) in jobs {
        runs(&rt, rt.alloc(), "run a b c", job, CALM, (report, 3), (0, 0))?;
    }
    Ok(())
}

/// Which calls fail; what is printed behind the report of the training, or in place of it, the status, and what was
/// handed out.
type Faulty = (Fails<'static>, &'static str, u8, (usize, usize));

const TRAINED: [Faulty; 3] = [
    // the second write of the report
    (
        Fails {
            report: &[1],
            ..CALM
        },
        "",
        8,
        (0, 0),
    ),
    (
        Fails {
            capture: &[0],
            ..CALM
        },
        "plan symbols 12 n 1296000 m 25920000 unit 32 delay 112 end 225 bound 20\nwrite fault\n",
        8,
        (0, 0),
    ),
    // the header alone is written by then
    (
        Fails {
            clocks: &[228],
            ..CALM
        },
        "plan symbols 12 n 1296000 m 25920000 unit 32 delay 112 end 225 bound 20\npipe fault\n",
        9,
        (8, 229),
    ),
];

#[test]
fn a_fault_of_run_leaves_what_was_done_before(rt: HostRuntime) -> Result<(), Fail> {
    let job = job(rt.alloc(), ("HBR3", 4), TWO_FRAMES, "")?;
    for (fails, behind, status, handed) in TRAINED {
        let report = format!(in rt.alloc(); "{FOUR_LANES}{behind}")?;
        let wanted = (report.as_str(), status);
        runs(
            &rt,
            rt.alloc(),
            "run a b c",
            job.as_str(),
            fails,
            wanted,
            handed,
        )?;
    }
    Ok(())
}

#[test]
fn a_fault_at_once_stops_run(rt: HostRuntime) -> Result<(), Fail> {
    let job = job(rt.alloc(), ("HBR3", 4), TWO_FRAMES, "")?;
    let rows = [
        (Fails { job: &[0], ..CALM }, "read fault\n", 7),
        (
            Fails {
                report: &[0],
                ..CALM
            },
            "",
            8,
        ),
    ];
    for (fails, report, status) in rows {
        let wanted = (report, status);
        runs(
            &rt,
            rt.alloc(),
            "run a b c",
            job.as_str(),
            fails,
            wanted,
            (0, 0),
        )?;
    }
    Ok(())
}

/// 3840 by 2160 pixels of 8 bits over four lanes at HBR2.
#[test]
fn a_frame_of_four_thousand_columns_is_sent(rt: HostRuntime) -> Result<(), Fail> {
    let mode = r#""width":3840,"height":2160,"htotal":4000,"vtotal":2222,
    "hsw":32,"hstart":112,"vsw":5,"vstart":59,"clock":533250"#;
    let job = job(rt.alloc(), ("HBR2", 4), mode, "")?;
    let mut black = Vec::new(rt.alloc());
    black.resize(8_294_400, Pixel::default())?;
    let mut stage = Stage {
        src: MemSource::new(job.as_bytes().to_vec(rt.alloc())?, 64, Vec::new(rt.alloc())),
        pipe: MemPipe::new(black, Vec::new(rt.alloc())),
        port: PlanPort::new(rt.alloc())?,
        pix: MemSink::new(rt.alloc(), 72_004_248, Vec::new(rt.alloc()))?,
        out: MemSink::new(rt.alloc(), 1024, Vec::new(rt.alloc()))?,
    };
    let report =
        "trained HBR2 4 requests 10\nlane 0 swing 0 emphasis 0\nlane 1 swing 0 emphasis 0\n\
        lane 2 swing 0 emphasis 0\nlane 3 swing 0 emphasis 0\nlast 77 77 01 00 00 00\n\
        plan symbols 2880 n 12798000 m 17280000 unit 64 delay 24 end 3876 bound 28\n\
        sent frames 1 lines 2160 clocks 9000524\n";
    ends(&rt, rt.alloc(), "run a b c", &mut stage, (report, 0))?;
    assert_eq!(rt; stage.handed(), (72_004_248, 9_000_524));
    Ok(())
}
