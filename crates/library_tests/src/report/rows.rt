//! A report without rows.
use crate::report::support::prints;
use check_report::Form;

#[test]
fn a_report_without_rows(rt: HostRuntime) {
    prints(&rt, Form::Text, b"sound: 0 bad, 0 remarks, 0 changes\n");
    prints(
        &rt,
        Form::Json,
        b"{\"format\":1,\"image\":\"new.rom\",\"rows\":[],\"verdict\":\"sound\",\"bad\":0,\
\"remarks\":0,\"changes\":0}\n",
    );
}
