// Whole texts, which another program wrote by the same rules.
use app_generator::generate::generate;
use std::test::Fail;

const OIL: &str =
    "OIL_VERSION = \"2.5\";\nCPU c {\nOS o { STATUS = EXTENDED; };\nAPPMODE M { };\nRESOURCE R0 { RESOURCEPROPERTY = STANDARD; };\nTASK T0 { PRIORITY = 0; SCHEDULE = FULL; ACTIVATION = 1; AUTOSTART = TRUE { APPMODE = M; }; RESOURCE = R0; };\nTASK T1 { PRIORITY = 1; SCHEDULE = FULL; ACTIVATION = 1; AUTOSTART = FALSE; RESOURCE = R0; };\nISR I0 { CATEGORY = 2; PRIORITY = 1; RESOURCE = R0; };\n};\n";

const C: &str =
    "uint8_t g0;\nuint8_t g1;\nuint8_t g2;\nuint8_t g3;\nISR(I0) {\n  GetResource(R0);\n  g0 = g0 + 1;\n  ReleaseResource(R0);\n}\nTASK(T0) {\n  g2 = g3 + 169;\n  g1 = g2 + 126;\n  g3 = g2 + 128;\n  g3 = g2 + 27;\n  GetResource(R0);\n  g0 = g0 + 1;\n  ReleaseResource(R0);\n  ActivateTask(T1);\n  assert(g0 <= 5);\n  TerminateTask();\n}\nTASK(T1) {\n  g2 = g2 + 134;\n  g2 = g2 + 167;\n  g1 = g2 + 101;\n  g3 = g2 + 13;\n  GetResource(R0);\n  g0 = g0 + 1;\n  ReleaseResource(R0);\n  TerminateTask();\n}\n";

#[test]
fn application_0_has_two_tasks(rt: HostRuntime) -> Result<(), Fail> {
    let app = generate(rt.alloc(), 0, 3)?;
    assert!(rt; app.oil.as_bytes() == OIL.as_bytes());
    assert!(rt; app.c.as_bytes() == C.as_bytes());
    Ok(())
}

#[test]
fn the_number_decides_how_many_tasks_there_are(rt: HostRuntime) -> Result<(), Fail> {
    let seven = generate(rt.alloc(), 1, 0)?;
    assert!(rt; seven.oil.as_bytes().len() == 776 && seven.c.as_bytes().len() == 1051);
    let eight = generate(rt.alloc(), 6, 0)?;
    assert!(rt; eight.oil.as_bytes().len() == 855 && eight.c.as_bytes().len() == 1169);
    Ok(())
}
